// Classes of units, and runs of them.
ghost use Rattle.std.specs.Prelude.{◌≡◌, ◌≤◌, ◌<◌, ◌+◌, ◌^◌, true, length, take, drop};
ghost use Rattle.std.specs.List.{prefix_len};
ghost use Rattle.utf16_text.specs.Letters.{is_space_unit};
ghost use Rattle.utf16_text.specs.Digits.{is_digit, is_hexadecimal};
ghost use Rattle.js_grammar.specs.Units.{
  first_passes,
  begins_with,
  is_word_start,
  is_word_part,
  has_break,
  place_after,
};
ghost use Rattle.js_grammar.specs.Tokens.{is_inline};

use js_tree::Place;
use utf16_text::{is_digit, is_hexadecimal, is_line_terminator, is_space};

const LINE_FEED: u16 = 0x0A;

const CARRIAGE_RETURN: u16 = 0x0D;

pub fn is_word_start(unit: u16) -> bool
    ensures { result ≡ is_word_start unit }
{
    matches!(unit, 97..=122 | 65..=90 | 36 | 95)
}

pub fn is_word_part(unit: u16) -> bool
    ensures { result ≡ is_word_part unit }
{
    is_word_start(unit) || is_digit(unit)
}

pub fn begins_with(unit: u16, units: &[u16]) -> bool
    ensures { result ≡ begins_with unit units.now }
{
    match units {
        [first, ..] => *first == unit,
        [] => false,
    }
}

pub fn begins_digit(units: &[u16]) -> bool
    ensures { result ≡ first_passes is_digit units.now }
{
    match units {
        [first, ..] => is_digit(*first),
        [] => false,
    }
}

pub fn begins_word(units: &[u16]) -> bool
    ensures { result ≡ first_passes is_word_start units.now }
{
    match units {
        [first, ..] => is_word_start(*first),
        [] => false,
    }
}

/// At most so many units at the front.
pub fn front(units: &[u16], n: usize) -> &[u16]
    ensures { result.now ≡ take n units.now }
{
    match units.get(..n) {
        Some(front) => front,
        None => units,
    }
}

/// The units behind so many.
pub fn behind(units: &[u16], n: usize) -> &[u16]
    ensures { result.now ≡ drop n units.now }
{
    match units.get(n..) {
        Some(rest) => rest,
        None => &[],
    }
}

/// Whether no line ends at a unit. Nearly all units of a script stand between those at which one does.
pub fn is_inline(unit: u16) -> bool
    ensures { result ≡ is_inline unit }
{
    matches!(unit, 0x0E..=0x2027) || !is_line_terminator(unit)
}

pub fn space_length(units: &[u16]) -> usize
    ensures value { result ≡ prefix_len is_space_unit units.now }
    ensures within { result ≤ length units.now }
{
    units.iter().take_while(|unit| is_space(**unit)).count()
}

pub fn inline_length(units: &[u16]) -> usize
    ensures value { result ≡ prefix_len is_inline units.now }
    ensures within { result ≤ length units.now }
{
    units.iter().take_while(|unit| is_inline(**unit)).count()
}

pub fn word_length(units: &[u16]) -> usize
    ensures value { result ≡ prefix_len is_word_part units.now }
    ensures within { result ≤ length units.now }
    ensures some { first_passes is_word_part units.now ≡ true → 0 < result }
{
    units.iter().take_while(|unit| is_word_part(**unit)).count()
}

pub fn digits_length(units: &[u16]) -> usize
    ensures value { result ≡ prefix_len is_digit units.now }
    ensures within { result ≤ length units.now }
    ensures some { first_passes is_digit units.now ≡ true → 0 < result }
{
    units.iter().take_while(|unit| is_digit(**unit)).count()
}

pub fn hexadecimal_length(units: &[u16]) -> usize
    ensures value { result ≡ prefix_len is_hexadecimal units.now }
    ensures within { result ≤ length units.now }
{
    units
        .iter()
        .take_while(|unit| is_hexadecimal(**unit))
        .count()
}

/// Whether a line ends within these units.
pub fn has_break(units: &[u16]) -> bool
    ensures { result ≡ has_break units.now }
{
    units.iter().any(|unit| is_line_terminator(*unit))
}

/// The place after these units, of which the first stands at this place: a line's end begins the next line.
pub fn place_after(place: Place, units: &[u16]) -> Place
    requires line { place.line + length units.now < 2 ^ 32 }
    requires column { place.column + length units.now < 2 ^ 32 }
    requires first { 0 < place.column }
    ensures value { result ≡ place_after place units.now }
    ensures line { result.line ≤ place.line + length units.now }
    ensures column { result.column ≤ place.column + length units.now }
    ensures first { 0 < result.column }
{
    let mut line = place.line;
    let mut column = place.column;
    let mut rest = units;
    loop {
        let count = inline_length(rest);
        column += count as u32;
        let [end, others @ ..] = behind(rest, count) else {
            return Place { line, column };
        };
        if *end != CARRIAGE_RETURN || !begins_with(LINE_FEED, others) {
            line += 1;
            column = 1;
        }
        rest = others;
    }
}
