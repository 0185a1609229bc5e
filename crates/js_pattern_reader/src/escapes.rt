// Escapes.
ghost use Rattle.std.specs.Prelude.{◌≡◌, ◌<◌, IfSome};
ghost use Rattle.js_pattern_reader.specs.Escapes.{
  as_unit,
  atom_at,
  begins_with_digit,
  class_escape_at,
  digit_at,
  escape_at,
  four_digits_at,
  set_of,
  two_digits_at,
  unit_at,
};
ghost use Rattle.js_pattern_reader.specs.Answers.{Reads, seen};

use crate::PatternAnswer;
use js_pattern::{Assertion, Set, is_word};
use utf16_text::{digit_of, is_digit, is_hexadecimal};

/// What stands for units, in a class and outside.
#[derive(Clone, Copy, Debug, PartialEq, Eq)]
pub enum ClassAtom {
    Unit(u16),
    Set(Set),
}

/// What an escape outside a class stands for.
#[derive(Clone, Copy, Debug, PartialEq, Eq)]
pub enum Escape {
    Atom(ClassAtom),
    Assertion(Assertion),
    /// What the group of this number has matched, counted from 0.
    Reference(u8),
}

/// What was read, and the units behind it.
pub type Read<'a, T> = Result<(T, &'a [u16]), PatternAnswer>;

/// A hexadecimal digit.
fn digit_at(units: &[u16]) -> Option<(u16, &[u16])>
    ensures value { seen result ≡ digit_at units.now }
    ensures small { IfSome result (λ x. x.0 < 16) }
{
    let (unit, rest) = units.split_first()?;
    if is_hexadecimal(*unit) {
        Some((digit_of(*unit), rest))
    } else {
        None
    }
}

fn two_digits_at(units: &[u16]) -> Option<(u16, &[u16])>
    ensures value { seen result ≡ two_digits_at units.now }
    ensures small { IfSome result (λ x. x.0 < 256) }
{
    let (high, rest) = digit_at(units)?;
    let (low, rest) = digit_at(rest)?;
    Some((high * 16 + low, rest))
}

fn four_digits_at(units: &[u16]) -> Option<(u16, &[u16])>
    ensures { seen result ≡ four_digits_at units.now }
{
    let (high, rest) = two_digits_at(units)?;
    let (low, rest) = two_digits_at(rest)?;
    Some((high * 256 + low, rest))
}

fn begins_with_digit(units: &[u16]) -> bool
    ensures { result ≡ begins_with_digit units.now }
{
    match units.split_first() {
        None => false,
        Some((unit, _)) => is_digit(*unit),
    }
}

/// The unit that is escaped, by the unit behind the backslash and those behind that.
fn unit_at(unit: u16, rest: &[u16]) -> Option<(u16, &[u16])>
    ensures { seen result ≡ unit_at unit rest.now }
{
    match unit {
        116 => Some((9, rest)), // `t`
        110 => Some((10, rest)), // `n`
        118 => Some((11, rest)), // `v`
        102 => Some((12, rest)), // `f`
        114 => Some((13, rest)), // `r`
        48 if begins_with_digit(rest) => None,
        48 => Some((0, rest)), // `0`
        120 => two_digits_at(rest), // `x`
        117 => four_digits_at(rest), // `u`
        _ if is_word(unit) => None,
        _ => Some((unit, rest)),
    }
}

fn set_of(unit: u16) -> Option<Set>
    ensures { result ≡ set_of unit }
{
    match unit {
        100 => Some(Set::Digit), // `d`
        68 => Some(Set::NoDigit), // `D`
        119 => Some(Set::Word), // `w`
        87 => Some(Set::NoWord), // `W`
        115 => Some(Set::Space), // `s`
        83 => Some(Set::NoSpace), // `S`
        _ => None,
    }
}

fn unit_or_refusal<'a>(unit: u16, rest: &'a [u16]) -> Read<'a, ClassAtom>
    ensures { Reads (as_unit (unit_at unit rest.now)) result }
{
    match unit_at(unit, rest) {
        None => Err(PatternAnswer::Unsupported),
        Some((unit, behind)) => Ok((ClassAtom::Unit(unit), behind)),
    }
}

fn atom_at<'a>(unit: u16, rest: &'a [u16]) -> Read<'a, ClassAtom>
    ensures { Reads (atom_at unit rest.now) result }
{
    match set_of(unit) {
        Some(set) => Ok((ClassAtom::Set(set), rest)),
        None => unit_or_refusal(unit, rest),
    }
}

/// An escape in a class.
pub fn class_escape_at<'a>(unit: u16, rest: &'a [u16]) -> Read<'a, ClassAtom>
    ensures { Reads (class_escape_at unit rest.now) result }
{
    if unit == 98 {
        return Ok((ClassAtom::Unit(8), rest));
    }
    atom_at(unit, rest)
}

/// An escape outside a class, in a pattern of so many groups.
pub fn escape_at<'a>(count: usize, unit: u16, rest: &'a [u16]) -> Read<'a, Escape>
    ensures { Reads (escape_at count unit rest.now) result }
{
    match unit {
        98 => Ok((Escape::Assertion(Assertion::Boundary), rest)), // `b`
        66 => Ok((Escape::Assertion(Assertion::NoBoundary), rest)), // `B`
        49..=57 => {
            if usize::from(unit - 48) <= count {
                Ok((Escape::Reference((unit - 49) as u8), rest))
            } else {
                Err(PatternAnswer::Unsupported)
            }
        }
        _ => {
            let (atom, behind) = atom_at(unit, rest)?;
            Ok((Escape::Atom(atom), behind))
        }
    }
}
