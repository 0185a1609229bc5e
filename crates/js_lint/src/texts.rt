// Texts that can't be meant.
ghost use Rattle.std.specs.Prelude.{◌≡◌, ◌≤◌, length};
ghost use Rattle.std.specs.List.{list_any, list_all};
ghost use Rattle.js_lint.specs.Texts as spec;

use crate::Advice;
use crate::lookups::is_spelled;
use pac_names::quad;
use utf16_text::{Text, is_digit};

/// What is wrong with a text that is handed to a global function, as its argument of this number, counted from 0.
pub(crate) fn handed_advice(function: &Text, number: u32, text: &Text) -> Option<Advice>
    ensures { result ≡ spec.handed_advice function.now number text.now }
{
    if is_spelled(function.units(), b"shExpMatch") && number == 1 {
        return pattern_advice(text.units());
    }
    if is_spelled(function.units(), b"isInNet") && (number == 1 || number == 2) {
        return quad_advice(text);
    }
    if is_spelled(function.units(), b"isInNetEx") && number == 1 {
        return prefix_advice(text.units());
    }
    None
}

/// What is wrong with a pattern of `shExpMatch`.
fn pattern_advice(pattern: &[u16]) -> Option<Advice>
    ensures { result ≡ spec.pattern_advice pattern.now }
{
    if has_choice(pattern) {
        return Some(Advice::Pattern);
    }
    None
}

fn has_choice(pattern: &[u16]) -> bool
    ensures { result ≡ list_any spec.is_choice_sign pattern.now }
{
    pattern.iter().any(|unit| is_choice_sign(*unit))
}

/// Whether it is `(`, `|` or `[`.
fn is_choice_sign(unit: u16) -> bool
    ensures { result ≡ spec.is_choice_sign unit }
{
    unit == 40 || unit == 124 || unit == 91
}

/// What is wrong with an address or a mask of `isInNet`.
fn quad_advice(text: &Text) -> Option<Advice>
    ensures { result ≡ spec.quad_advice text.now }
{
    if quad(text).is_none() {
        return Some(Advice::Quad);
    }
    None
}

/// What is wrong with a prefix of `isInNetEx`: that it has no length.
fn prefix_advice(text: &[u16]) -> Option<Advice>
    ensures { result ≡ spec.prefix_advice text.now }
{
    if !has_length(text) {
        return Some(Advice::Prefix);
    }
    None
}

fn has_length(text: &[u16]) -> bool
    ensures { result ≡ list_any spec.is_slash text.now }
{
    text.iter().any(|unit| is_slash(*unit))
}

fn is_slash(unit: u16) -> bool
    ensures { result ≡ spec.is_slash unit }
{
    unit == 47
}

/// What is wrong with a text beside a value that begins with this name.
pub(crate) fn beside_advice(name: &Text, text: &Text) -> Option<Advice>
    ensures { result ≡ spec.beside_advice name.now text.now }
{
    if is_spelled(name.units(), b"url") && is_unasked(text.units()) {
        return Some(Advice::Scheme);
    }
    None
}

/// Whether a text tests a URL for a scheme that no URL has (RFC 3986, section 3.1).
fn is_unasked(text: &[u16]) -> bool
    ensures { result ≡ spec.is_unasked text.now }
{
    let (scheme, rest) = text.split_at(scheme_length(text));
    tests_front(rest) && is_scheme(scheme) && !is_asked(scheme)
}

/// How many units stand before the first `:`.
fn scheme_length(text: &[u16]) -> usize
    ensures value { result ≡ spec.scheme_length text.now }
    ensures within { result ≤ length text.now }
{
    text.iter().take_while(|unit| **unit != 58).count()
}

/// Whether `:` stands there, and nothing, `/` or `*` behind it.
fn tests_front(rest: &[u16]) -> bool
    ensures { result ≡ spec.tests_front rest.now }
{
    match rest {
        [] => false,
        [first, behind @ ..] => *first == 58 && goes_on(behind),
    }
}

fn goes_on(rest: &[u16]) -> bool
    ensures { result ≡ spec.goes_on rest.now }
{
    match rest {
        [] => true,
        [first, ..] => *first == 47 || *first == 42,
    }
}

fn is_scheme(units: &[u16]) -> bool
    ensures { result ≡ spec.is_scheme units.now }
{
    match units {
        [] => false,
        [first, rest @ ..] => is_letter(*first) && are_scheme_units(rest),
    }
}

fn are_scheme_units(units: &[u16]) -> bool
    ensures { result ≡ list_all spec.is_scheme_unit units.now }
{
    units.iter().all(|unit| is_scheme_unit(*unit))
}

fn is_letter(unit: u16) -> bool
    ensures { result ≡ spec.is_letter unit }
{
    matches!(unit, 65..=90 | 97..=122)
}

fn is_scheme_unit(unit: u16) -> bool
    ensures { result ≡ spec.is_scheme_unit unit }
{
    is_letter(unit) || is_digit(unit) || unit == 43 || unit == 45 || unit == 46
}

/// Whether browsers hand URLs of this scheme to a script.
fn is_asked(scheme: &[u16]) -> bool
    ensures { result ≡ spec.is_asked scheme.now }
{
    is_spelled(scheme, b"http")
        || is_spelled(scheme, b"https")
        || is_spelled(scheme, b"ws")
        || is_spelled(scheme, b"wss")
        || is_spelled(scheme, b"ftp")
}
