// Text literals.
ghost use Rattle.std.specs.Prelude.{◌≡◌, ◌≤◌, ◌<◌, ◌+◌, ◌++◌, IfOk, OnOk, IfErr, length, option_to_list};
ghost use Rattle.js_grammar.specs.Reading.{Gives};
ghost use Rattle.js_grammar.specs.Literals as spec;
ghost use Rattle.js_grammar.specs.Tokens.{at_place};
ghost use Rattle.js_tree.specs.declared.refusal.ReadAnswer.TheVariants as answers;
ghost use Rattle.js_lexer.specs.Texts.{is_plain};
ghost use Rattle.std.specs.List.{prefix_len};

use crate::units::{begins_digit, begins_with, behind, front, hexadecimal_length, is_inline};
use js_tree::{Place, ReadAnswer, ReadKind};
use std::alloc::Global;
use utf16_text::{Text, is_digit, is_line_terminator};
use whole_number::capped_value;

const LINE_FEED: u16 = 0x0A;

const CARRIAGE_RETURN: u16 = 0x0D;

const ZERO: u16 = 0x30;

const BACKSLASH: u16 = 0x5C;

const LETTER_U: u16 = 0x75;

const LETTER_X: u16 = 0x78;

/// So many hexadecimal digits behind `\x` or `\u`: the unit of that number.
fn numbered_at(count: usize, units: &[u16]) -> Result<(Option<u16>, usize), ReadKind>
    requires { count ≤ 4 }
    ensures value { result ≡ spec.numbered_at count units.now }
    ensures within { IfOk result (λ x. (0 < x.1) × (x.1 ≤ length units.now + 1)) }
{
    let digits = front(units, count);
    if hexadecimal_length(digits) != count {
        return Err(ReadKind::BadToken);
    }
    Ok((Some(capped_value(16, digits) as u16), count + 1))
}

fn break_length(units: &[u16]) -> usize
    requires { 0 < length units.now }
    ensures value { result ≡ spec.break_length units.now }
    ensures within { (0 < result) × (result ≤ length units.now) }
{
    if begins_with(CARRIAGE_RETURN, units) && begins_with(LINE_FEED, behind(units, 1)) {
        2
    } else {
        1
    }
}

/// The unit that a letter stands for behind `\`.
fn escape_of(unit: u16) -> u16
    ensures { result ≡ spec.escape_of unit }
{
    match unit {
        98 => 8,
        116 => 9,
        110 => 10,
        118 => 11,
        102 => 12,
        114 => 13,
        _ => unit,
    }
}

/// What stands behind `\`: a unit, or none for a line's end, and how many units it has.
fn escape_at(units: &[u16]) -> Result<(Option<u16>, usize), ReadKind>
    ensures value { result ≡ spec.escape_at units.now }
    ensures within { IfOk result (λ x. (0 < x.1) × (x.1 ≤ length units.now)) }
{
    let [unit, rest @ ..] = units else {
        return Err(ReadKind::BadToken);
    };
    if is_line_terminator(*unit) {
        Ok((None, break_length(units)))
    } else if *unit == LETTER_X {
        numbered_at(2, rest)
    } else if *unit == LETTER_U {
        numbered_at(4, rest)
    } else if *unit == ZERO && !begins_digit(rest) {
        Ok((Some(0), 1))
    } else if is_digit(*unit) {
        Err(ReadKind::Unsupported)
    } else {
        Ok((Some(escape_of(*unit)), 1))
    }
}

/// A text up to its quote, and how many units it has, the quote among them (ECMA-262 5.1, section 7.8.4). A refusal has
/// the place that is handed in.
pub fn text_at(
    alloc: Global,
    place: Place,
    quote: u16,
    units: &[u16],
) -> Result<(Text, usize), ReadAnswer>
    ensures gives { Gives (λ x. x) result (at_place place (spec.text_at quote units.now)) }
    ensures within { IfOk result (λ x. (0 < x.1) × (x.1 ≤ length units.now)) }
{
    let mut text = Vec::new(alloc);
    let mut rest = units;
    let mut length = 0;
    'characters: loop {
        let (plain, behind_plain) = rest.split_at(plain_length(quote, rest));
        text.extend_from_slice(plain)?;
        length += plain.len();
        rest = behind_plain;
        let Some((unit, others)) = rest.split_first() else {
            return Err(ReadAnswer::Refused(ReadKind::BadToken, place));
        };
        if *unit == quote {
            let text = Text::from_vec(text)?;
            return Ok((text, length + 1));
        }
        if is_line_terminator(*unit) {
            return Err(ReadAnswer::Refused(ReadKind::BadToken, place));
        }
        let (written, count) = character_at(*unit, others, place)?;
        put(&mut text, written)?;
        length += count;
        rest = behind(rest, count);
    }
}

/// How many units in front stand for themselves in a text.
fn plain_length(quote: u16, units: &[u16]) -> usize
    ensures value { result ≡ prefix_len (is_plain quote) units.now }
    ensures within { result ≤ length units.now }
{
    units
        .iter()
        .take_while(|unit| is_plain(quote, **unit))
        .count()
}

/// Whether a unit stands for itself in a text: it is no quote, no `\` and no line terminator.
fn is_plain(quote: u16, unit: u16) -> bool
    ensures { result ≡ is_plain quote unit }
{
    unit != quote && unit != BACKSLASH && is_inline(unit)
}

/// The unit that a character of a text gives, or none, and how many units it has: itself, or what stands behind `\`.
fn character_at(unit: u16, others: &[u16], place: Place) -> Result<(Option<u16>, usize), ReadAnswer>
    ensures gives { Gives (λ x. x) result (at_place place (spec.character_at unit others.now)) }
    ensures within { IfOk result (λ x. (0 < x.1) × (x.1 ≤ length others.now + 1)) }
{
    if unit != BACKSLASH {
        return Ok((Some(unit), 1));
    }
    match escape_at(others) {
        Ok((written, count)) => Ok((written, count + 1)),
        Err(kind) => Err(ReadAnswer::Refused(kind, place)),
    }
}

/// Puts a unit at the end, where there is one.
fn put(text: &mut Vec<u16>, unit: Option<u16>) -> Result<(), ReadAnswer>
    ensures ok { OnOk result (text.new.items ≡ text.old.items ++ option_to_list unit) }
    ensures memory { IfErr result (λ e. e ≡ answers.Memory) }
{
    if let Some(unit) = unit {
        text.push(unit)?;
    }
    Ok(())
}
