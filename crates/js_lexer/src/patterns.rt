// Pattern literals.
ghost use Rattle.std.specs.Prelude.{◌≡◌, ◌≤◌, ◌<◌, ◌++◌, Some, IfOk, IfSome, OnOk, length};
ghost use Rattle.utf16_text.specs.Escape.{hexadecimal_digit_of, numbered_unit};
ghost use Rattle.js_grammar.specs.Reading.{Gives};
ghost use Rattle.js_grammar.specs.Patterns as spec;
ghost use Rattle.js_grammar.specs.Tokens.{at_place};

use crate::units::{behind, front, word_length};
use js_pattern_reader::{PatternAnswer, PatternLiteral};
use js_tree::{Place, ReadAnswer, ReadKind};
use std::alloc::{AllocError, Global};
use utf16_text::{Memory, Text, is_line_terminator};

const SLASH: u16 = 0x2F;

const LEFT_BRACKET: u16 = 0x5B;

const BACKSLASH: u16 = 0x5C;

const RIGHT_BRACKET: u16 = 0x5D;

/// Whether a unit is a `\` that escapes the one behind it.
fn escapes(escaped: bool, unit: u16) -> bool
    ensures { result ≡ spec.escapes escaped unit }
{
    unit == BACKSLASH && !escaped
}

/// Whether what stands behind a unit is in a class.
fn class_behind(escaped: bool, within: bool, unit: u16) -> bool
    ensures { result ≡ spec.class_behind escaped within unit }
{
    if escaped {
        within
    } else if within {
        unit != RIGHT_BRACKET
    } else {
        unit == LEFT_BRACKET
    }
}

fn ends_body(escaped: bool, within: bool, unit: u16) -> bool
    ensures { result ≡ spec.ends_body escaped within unit }
{
    unit == SLASH && !(escaped || within)
}

/// How many units there are before the slash that ends a body.
fn body_length(units: &[u16]) -> Option<usize>
    ensures value { result ≡ spec.body_length units.now }
    ensures within { IfSome result (λ n. n < length units.now) }
{
    let mut passed = 0;
    let mut escaped = false;
    let mut within = false;
    let mut rest = units;
    while let [unit, others @ ..] = rest {
        if is_line_terminator(*unit) {
            return None;
        }
        if ends_body(escaped, within, *unit) {
            return Some(passed);
        }
        within = class_behind(escaped, within, *unit);
        escaped = escapes(escaped, *unit);
        passed += 1;
        rest = others;
    }
    None
}

/// Whether a unit is kept as it is: it is one from 32 to 126.
pub fn is_plain(unit: u16) -> bool
    ensures { result ≡ spec.is_plain unit }
{
    unit >= 32 && unit <= 126
}

/// `\u` and four hexadecimal digits: how a unit is kept that isn't plain.
pub fn numbered_unit(unit: u16) -> [u8; 6]
    ensures { result ≡ numbered_unit unit }
{
    [
        b'\\',
        b'u',
        hexadecimal_digit(unit / 4096),
        hexadecimal_digit(unit / 256 % 16),
        hexadecimal_digit(unit / 16 % 16),
        hexadecimal_digit(unit % 16),
    ]
}

fn hexadecimal_digit(value: u16) -> u8
    requires { value < 16 }
    ensures { result ≡ hexadecimal_digit_of value }
{
    if value < 10 {
        value as u8 + b'0'
    } else {
        value as u8 - 10 + b'a'
    }
}

fn put_numbered(out: &mut Vec<u16>, unit: u16) -> Result<(), AllocError>
    ensures { OnOk result (out.new.items ≡ out.old.items ++ numbered_unit unit) }
{
    let [a, b, c, d, e, f] = numbered_unit(unit);
    out.extend_from_slice(&[
        u16::from(a),
        u16::from(b),
        u16::from(c),
        u16::from(d),
        u16::from(e),
        u16::from(f),
    ])
}

/// Writes what is kept of a unit of a body: a `\` is kept with the unit that it escapes.
fn put_kept(out: &mut Vec<u16>, escaped: bool, unit: u16) -> Result<(), AllocError>
    ensures { OnOk result (out.new.items ≡ out.old.items ++ spec.kept_unit escaped unit) }
{
    if escapes(escaped, unit) {
        Ok(())
    } else if !is_plain(unit) {
        put_numbered(out, unit)
    } else if escaped {
        out.extend_from_slice(&[BACKSLASH, unit])
    } else {
        out.extend_from_slice(&[unit])
    }
}

/// What is kept of a body.
fn kept(alloc: Global, units: &[u16]) -> Result<Text, Memory>
    ensures { IfOk result (λ t. t ≡ spec.kept units.now) }
{
    let mut out = Vec::new(alloc);
    let mut escaped = false;
    let mut rest = units;
    while let [unit, others @ ..] = rest {
        put_kept(&mut out, escaped, *unit)?;
        escaped = escapes(escaped, *unit);
        rest = others;
    }
    Text::from_vec(out)
}

/// The literal of a body and flags that are a pattern.
#[tactic(auto, unfolding(js_grammar::specs::Patterns::literal_of))]
fn literal_of(
    alloc: Global,
    place: Place,
    body: Text,
    flags: Text,
) -> Result<PatternLiteral, ReadAnswer>
    ensures { Gives (λ l. l) result (at_place place (spec.literal_of body flags)) }
{
    match PatternLiteral::read(alloc, body, flags) {
        Ok(literal) => Ok(literal),
        Err(PatternAnswer::Bad) => Err(ReadAnswer::Refused(ReadKind::BadToken, place)),
        Err(PatternAnswer::Unsupported) => Err(ReadAnswer::Refused(ReadKind::Unsupported, place)),
        Err(PatternAnswer::Memory) => Err(ReadAnswer::Memory),
    }
}

/// A pattern literal behind its first slash, whose body has so many units.
fn pattern_of_length(
    alloc: Global,
    place: Place,
    units: &[u16],
    count: usize,
) -> Result<(PatternLiteral, usize), ReadAnswer>
    requires { count < length units.now }
    ensures gives { Gives (λ x. x) result (at_place place (spec.pattern_by units.now (Some count))) }
    ensures within { IfOk result (λ x. x.1 ≤ length units.now) }
{
    let body = kept(alloc, front(units, count))?;
    let rest = behind(units, count + 1);
    let flags = front(rest, word_length(rest));
    let literal = literal_of(alloc, place, body, Text::from_units(alloc, flags)?)?;
    Ok((literal, count + 1 + flags.len()))
}

/// A pattern literal behind its first slash, and how many units it has there (ECMA-262 5.1, section 7.8.5). A refusal has
/// the place that is handed in.
#[tactic(auto, unfolding(js_grammar::specs::Patterns::pattern_at))]
pub fn pattern_at(
    alloc: Global,
    place: Place,
    units: &[u16],
) -> Result<(PatternLiteral, usize), ReadAnswer>
    ensures gives { Gives (λ x. x) result (at_place place (spec.pattern_at units.now)) }
    ensures within { IfOk result (λ x. x.1 ≤ length units.now) }
{
    match body_length(units) {
        Some(count) => pattern_of_length(alloc, place, units, count),
        None => Err(ReadAnswer::Refused(ReadKind::BadToken, place)),
    }
}
