// What a site comes to.
ghost use Rattle.std.specs.Prelude.{◌≡◌, IfOk, slice_get};
ghost use Rattle.std.specs.Option.{option_copied, option_map};
ghost use Rattle.js_tree.specs.View.{function_of};
ghost use Rattle.js_scope.specs.Functions.{functions_of};
ghost use Rattle.js_lint.specs.Rules as spec;

use crate::lookups::{global_standing, is_spelled, member_advice, missing_by, object_advice};
use crate::own::{Own, has_name};
use crate::standing::Standing;
use crate::texts::{beside_advice, handed_advice};
use crate::{Advice, Finding};
use js_ends::{Ends, ends_of};
use js_sites::Site;
use js_tree::{Function, Place};
use std::alloc::Global;
use utf16_text::{Memory, Text};

/// The finding that a site comes to, if it comes to one. The functions are those of the program, by their numbers.
pub(crate) fn finding_at(
    alloc: Global,
    own: &Own,
    functions: &[Function],
    site: &Site,
) -> Result<Option<Finding>, Memory>
    ensures { IfOk result (λ f. f ≡ spec.finding_at own.now (functions_of functions.now) site.now) }
{
    match site {
        Site::Named { place, name } => found(alloc, *place, None, name, name_advice(own, name)),
        Site::Constructed { place, name } => found(
            alloc,
            *place,
            None,
            name,
            new_advice(own, name),
        ),
        Site::Written { name: _ } => Ok(None),
        Site::Member {
            place,
            object,
            name,
        } => member_finding(alloc, own, *place, object, name),
        Site::Made { name: _ } => Ok(None),
        Site::Handed {
            place,
            function,
            number,
            text,
        } => found(
            alloc,
            *place,
            None,
            text,
            argument_advice(own, function, *number, text),
        ),
        Site::Beside { place, name, text } => {
            found(alloc, *place, None, text, beside_advice(name, text))
        }
        Site::Function {
            place,
            name,
            number,
        } => numbered_finding(alloc, *place, name, functions, *number),
    }
}

/// The finding of an advice, where there is one.
fn found(
    alloc: Global,
    place: Place,
    object: Option<&Text>,
    name: &Text,
    advice: Option<Advice>,
) -> Result<Option<Finding>, Memory>
    ensures { IfOk result (λ f. f ≡ spec.found place (option_copied object.entry) name.now advice) }
{
    let Some(advice) = advice else {
        return Ok(None);
    };
    let object = copied(alloc, object)?;
    let name = name.copy(alloc)?;
    Ok(Some(Finding {
        place,
        object,
        name,
        advice,
    }))
}

fn copied(alloc: Global, name: Option<&Text>) -> Result<Option<Text>, Memory>
    ensures { IfOk result (λ copy. copy ≡ option_copied name.entry) }
{
    match name {
        None => Ok(None),
        Some(name) => Ok(Some(name.copy(alloc)?)),
    }
}

// Global names. One that the script declares is its own.

fn name_advice(own: &Own, name: &Text) -> Option<Advice>
    ensures { result ≡ spec.name_advice own.now name.now }
{
    if has_name(&own.globals, name) {
        return None;
    }
    match global_standing(name) {
        None => Some(Advice::Undeclared),
        Some(standing) => missing_by(Some(standing)),
    }
}

fn new_advice(own: &Own, name: &Text) -> Option<Advice>
    ensures { result ≡ spec.new_advice own.now name.now }
{
    if has_name(&own.globals, name) {
        return None;
    }
    match global_standing(name) {
        Some(Standing::Here) => Some(Advice::NoNew),
        _ => None,
    }
}

fn argument_advice(own: &Own, function: &Text, number: u32, text: &Text) -> Option<Advice>
    ensures { result ≡ spec.argument_advice own.now function.now number text.now }
{
    if has_name(&own.globals, function) {
        return None;
    }
    handed_advice(function, number, text)
}

// Properties. One that the script makes is its own.

fn member_finding(
    alloc: Global,
    own: &Own,
    place: Place,
    object: &Option<Text>,
    name: &Text,
) -> Result<Option<Finding>, Memory>
    ensures { IfOk result (λ f. f ≡ spec.member_finding own.now place object.now name.now) }
{
    if has_name(&own.members, name) {
        return Ok(None);
    }
    match advice_of_object(own, object, name) {
        None => found(alloc, place, None, name, member_advice(name)),
        Some(advice) => found(alloc, place, object.as_ref(), name, Some(advice)),
    }
}

fn advice_of_object(own: &Own, object: &Option<Text>, name: &Text) -> Option<Advice>
    ensures { result ≡ spec.object_advice own.now object.now name.now }
{
    match object {
        None => None,
        Some(object) => own_object_advice(own, object, name),
    }
}

fn own_object_advice(own: &Own, object: &Text, name: &Text) -> Option<Advice>
    ensures { result ≡ spec.global_object_advice own.now object.now name.now }
{
    if has_name(&own.globals, object) {
        return None;
    }
    object_advice(object, name)
}

// Functions.

fn numbered_finding(
    alloc: Global,
    place: Place,
    name: &Option<Text>,
    functions: &[Function],
    number: u32,
) -> Result<Option<Finding>, Memory>
    ensures { IfOk result (λ f. f ≡ spec.function_finding place name.now (slice_get (functions_of functions.now) number)) }
{
    function_finding(alloc, place, name, function_at(functions, number))
}

fn function_at(functions: &[Function], number: u32) -> Option<&Function>
    ensures { option_copied result ≡ slice_get functions.now number }
{
    functions.get(number as usize)
}

fn function_finding(
    alloc: Global,
    place: Place,
    name: &Option<Text>,
    function: Option<&Function>,
) -> Result<Option<Finding>, Memory>
    ensures { IfOk result (λ f. f ≡ spec.function_finding place name.now (option_map function_of (option_copied function.entry))) }
{
    let Some(function) = function else {
        return Ok(None);
    };
    let shown = shown_name(alloc, name, function)?;
    let ends = ends_of(function.body.as_slice());
    found(alloc, place, None, &shown, return_advice(name, ends))
}

/// The name of a declaration, else the function's own, else the word itself.
fn shown_name(alloc: Global, name: &Option<Text>, function: &Function) -> Result<Text, Memory>
    ensures { IfOk result (λ shown. shown ≡ spec.shown_name name.now (function_of function.now)) }
{
    match name {
        Some(name) => name.copy(alloc),
        None => own_shown(alloc, function),
    }
}

fn own_shown(alloc: Global, function: &Function) -> Result<Text, Memory>
    ensures { IfOk result (λ shown. shown ≡ spec.own_shown (function_of function.now)) }
{
    match &function.name {
        Some(own) => own.name.copy(alloc),
        None => Text::from_latin_1(alloc, b"function"),
    }
}

fn return_advice(name: &Option<Text>, ends: Ends) -> Option<Advice>
    ensures { result ≡ spec.return_advice name.now ends }
{
    if may_lack(ends) && (is_entry(name) || ends.returns_value) {
        return Some(Advice::Return);
    }
    None
}

/// Whether a body with these ends may be left without a value.
fn may_lack(ends: Ends) -> bool
    ensures { result ≡ spec.may_lack ends }
{
    ends.completes || ends.breaks || ends.returns_nothing
}

fn is_entry(name: &Option<Text>) -> bool
    ensures { result ≡ spec.is_entry name.now }
{
    match name {
        None => false,
        Some(name) => is_entry_name(name.units()),
    }
}

fn is_entry_name(name: &[u16]) -> bool
    ensures { result ≡ spec.is_entry (Some name.now) }
{
    is_spelled(name, b"FindProxyForURL") || is_spelled(name, b"FindProxyForURLEx")
}
