// Quantifiers.
ghost use Rattle.std.specs.Prelude.{◌≡◌, ◌≤◌};
ghost use Rattle.js_pattern_reader.specs.Counts.{
  behind,
  behind_comma,
  behind_least,
  count_from,
  count_of,
  greedy_at,
  in_braces,
  quantifier,
  some_counts,
  to_most,
};
ghost use Rattle.js_pattern_reader.specs.Answers.{Gives, Reads};

use crate::escapes::Read;
use crate::{MOST_TIMES, PatternAnswer};
use utf16_text::is_digit;

/// How often a part is repeated, at least and at most; None where there is no limit.
#[derive(Clone, Copy, Debug, PartialEq, Eq)]
pub struct Counts {
    pub least: u16,
    pub most: Option<u16>,
}

fn up_to(least: u16, most: Option<u16>) -> Counts
    ensures { result ≡ record { least = least; most = most } }
{
    Counts { least, most }
}

/// The units behind one that must stand here.
pub fn behind<'a>(wanted: u16, units: &'a [u16]) -> Result<&'a [u16], PatternAnswer>
    ensures { Gives (λ x. x.now) result (behind wanted units.now) }
{
    match units.split_first() {
        None => Err(PatternAnswer::Bad),
        Some((unit, rest)) => {
            if *unit == wanted {
                Ok(rest)
            } else {
                Err(PatternAnswer::Bad)
            }
        }
    }
}

/// The number that digits spell behind one that was read.
fn count_from<'a>(first: u16, units: &'a [u16]) -> Read<'a, u16>
    requires { first ≤ MOST_TIMES }
    ensures { Reads (count_from first units.now) result }
{
    let mut count = first;
    let mut rest = units;
    while let Some((unit, others)) = rest.split_first() {
        if !is_digit(*unit) {
            break;
        }
        let more = count * 10 + (*unit - 48);
        if more > MOST_TIMES {
            return Err(PatternAnswer::Unsupported);
        }
        count = more;
        rest = others;
    }
    Ok((count, rest))
}

/// A number of one digit or more.
fn count_of<'a>(units: &'a [u16]) -> Read<'a, u16>
    ensures { Reads (count_of units.now) result }
{
    match units.split_first() {
        None => Err(PatternAnswer::Bad),
        Some((unit, rest)) => {
            if is_digit(*unit) {
                count_from(*unit - 48, rest)
            } else {
                Err(PatternAnswer::Bad)
            }
        }
    }
}

/// `m}`, which doesn't run backwards.
fn to_most<'a>(least: u16, units: &'a [u16]) -> Read<'a, Counts>
    ensures { Reads (to_most least units.now) result }
{
    let (most, rest) = count_of(units)?;
    if most < least {
        return Err(PatternAnswer::Bad);
    }
    let rest = behind(125, rest)?;
    Ok((up_to(least, Some(most)), rest))
}

/// `}`, or `m}`.
fn behind_comma<'a>(least: u16, units: &'a [u16]) -> Read<'a, Counts>
    ensures { Reads (behind_comma least units.now) result }
{
    match units.split_first() {
        None => Err(PatternAnswer::Bad),
        Some((unit, rest)) => {
            if *unit == 125 {
                Ok((up_to(least, None), rest))
            } else {
                to_most(least, units)
            }
        }
    }
}

/// `}`, or `,`.
fn behind_least<'a>(least: u16, units: &'a [u16]) -> Read<'a, Counts>
    ensures { Reads (behind_least least units.now) result }
{
    match units.split_first() {
        None => Err(PatternAnswer::Bad),
        Some((unit, rest)) => match *unit {
            125 => Ok((up_to(least, Some(least)), rest)), // `}`
            44 => behind_comma(least, rest), // `,`
            _ => Err(PatternAnswer::Bad),
        },
    }
}

/// Counts behind `{`.
fn in_braces<'a>(units: &'a [u16]) -> Read<'a, Counts>
    ensures { Reads (in_braces units.now) result }
{
    let (least, rest) = count_of(units)?;
    behind_least(least, rest)
}

fn some_counts<'a>(units: &'a [u16]) -> Read<'a, Option<Counts>>
    ensures { Reads (some_counts (in_braces units.now)) result }
{
    let (counts, rest) = in_braces(units)?;
    Ok((Some(counts), rest))
}

/// How often the part before is repeated, where it is.
pub fn quantifier<'a>(units: &'a [u16]) -> Read<'a, Option<Counts>>
    ensures { Reads (quantifier units.now) result }
{
    match units.split_first() {
        None => Ok((None, units)),
        Some((unit, rest)) => match *unit {
            42 => Ok((Some(up_to(0, None)), rest)), // `*`
            43 => Ok((Some(up_to(1, None)), rest)), // `+`
            63 => Ok((Some(up_to(0, Some(1))), rest)), // `?`
            123 => some_counts(rest), // `{`
            _ => Ok((None, units)),
        },
    }
}

/// Whether a quantifier is greedy: a `?` here makes it lazy.
pub fn greedy_at(units: &[u16]) -> (bool, &[u16])
    ensures { ((greedy_at units.now).0 ≡ result.0) × ((greedy_at units.now).1 ≡ result.1.now) }
{
    match units.split_first() {
        None => (true, units),
        Some((unit, rest)) => {
            if *unit == 63 {
                (false, rest)
            } else {
                (true, units)
            }
        }
    }
}
