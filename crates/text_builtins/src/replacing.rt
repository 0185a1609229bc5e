// A part of a text in place of another (ECMA-262 5.1, section 15.5.4.11).
ghost use Rattle.std.specs.Prelude.{◌≡◌, ◌<◌, ◌≤◌, ◌+◌, ◌++◌, [], IfOk, OnOk, IfSome, IfNone, length, take, drop};
ghost use Rattle.text_builtins.specs.Replacing.{
  BeginsWith,
  capped_length,
  expanded,
  replace_of,
  replaced_at,
  replaced_first,
  replacement_of,
};
ghost use Rattle.utf16_text.specs.declared.limits.TheConstants.{LONGEST_TEXT};

use crate::call::{TextArg, TextResult};
use crate::joining::units;
use std::alloc::{AllocError, Global};
use utf16_text::{LONGEST_TEXT, Memory, Text};

const DOLLAR: u16 = 36;

const AMPERSAND: u16 = 38;

const APOSTROPHE: u16 = 39;

const GRAVE: u16 = 96;

/// `replace`: a replacement in place of the first place of a part; the receiver itself where the part stands nowhere.
/// In the replacement `$$` is `$`, `$&` the part, `` $` `` what stands before it, and `$'` what stands behind it
/// (15.5.4.11).
pub fn replace(alloc: Global, receiver: &Text, args: &[TextArg]) -> Result<TextResult, Memory>
    requires { length receiver.now ≤ LONGEST_TEXT }
    ensures { IfOk result (λ r. r ≡ replace_of receiver.now args.now) }
{
    match args {
        [TextArg::Text(part), rest @ ..] => replaced_first(
            alloc,
            receiver,
            part,
            replacement(rest),
        ),
        _ => Ok(TextResult::Text(receiver.copy(alloc)?)),
    }
}

fn replaced_first(
    alloc: Global,
    receiver: &Text,
    part: &Text,
    by: &[u16],
) -> Result<TextResult, Memory>
    requires { length receiver.now ≤ LONGEST_TEXT }
    ensures { IfOk result (λ r. r ≡ replaced_first receiver.now part.now by.now) }
{
    match receiver.find(part, 0) {
        Some(at) => replaced(alloc, receiver.units(), at, part.units(), by),
        None => Ok(TextResult::Text(receiver.copy(alloc)?)),
    }
}

fn replaced(
    alloc: Global,
    units: &[u16],
    at: usize,
    part: &[u16],
    by: &[u16],
) -> Result<TextResult, Memory>
    requires fits { at + length part.now ≤ length units.now }
    requires short { length units.now ≤ LONGEST_TEXT }
    ensures { IfOk result (λ r. r ≡ replaced_at units.now at part.now by.now) }
{
    let before = front(units, at);
    let behind = rest(units, at + part.len());
    let size = expanded_length(by, before, part, behind);
    let length = before.len() + size + behind.len();
    if length > LONGEST_TEXT {
        return Ok(TextResult::TooLong);
    }
    let mut all = Vec::with_capacity(alloc, length)?;
    all.extend_from_slice(before)?;
    expand_into(&mut all, by, before, part, behind)?;
    all.extend_from_slice(behind)?;
    Ok(TextResult::Text(Text::from_vec(all)?))
}

fn replacement(args: &[TextArg]) -> &[u16]
    ensures { result.now ≡ replacement_of args.now }
{
    match args {
        [by, ..] => units(by),
        [] => &[],
    }
}

// The number of units of the replacement, or one more than the limit where they are more.
fn expanded_length(by: &[u16], before: &[u16], part: &[u16], behind: &[u16]) -> usize
    ensures { result ≡ capped_length by.now before.now part.now behind.now }
{
    let mut length: usize = 0;
    let mut left = by;
    while let Some((piece, more)) = next_piece(left, before, part, behind) {
        length = (length + piece.len()).min(LONGEST_TEXT + 1);
        left = more;
    }
    length
}

fn expand_into(
    all: &mut Vec<u16>,
    by: &[u16],
    before: &[u16],
    part: &[u16],
    behind: &[u16],
) -> Result<(), AllocError>
    ensures { OnOk result (all.new.items ≡ all.old.items ++ expanded before.now part.now behind.now by.now) }
{
    let mut left = by;
    while let Some((piece, more)) = next_piece(left, before, part, behind) {
        all.extend_from_slice(piece)?;
        left = more;
    }
    Ok(())
}

// The first piece of a replacement, and the rest of it.
fn next_piece<'a>(
    by: &'a [u16],
    before: &'a [u16],
    part: &'a [u16],
    behind: &'a [u16],
) -> Option<(&'a [u16], &'a [u16])>
    ensures piece { IfSome result (λ p. BeginsWith before.now part.now behind.now by.now p.0.now p.1.now) }
    ensures shorter { IfSome result (λ p. length p.1.now < length by.now) }
    ensures end { IfNone result (by.now ≡ []) }
{
    match by {
        [DOLLAR, DOLLAR, more @ ..] => Some((&by[..1], more)),
        [DOLLAR, AMPERSAND, more @ ..] => Some((part, more)),
        [DOLLAR, GRAVE, more @ ..] => Some((before, more)),
        [DOLLAR, APOSTROPHE, more @ ..] => Some((behind, more)),
        [_, more @ ..] => Some((&by[..1], more)),
        [] => None,
    }
}

fn front(units: &[u16], count: usize) -> &[u16]
    requires { count ≤ length units.now }
    ensures { result.now ≡ take count units.now }
{
    &units[..count]
}

fn rest(units: &[u16], from: usize) -> &[u16]
    requires { from ≤ length units.now }
    ensures { result.now ≡ drop from units.now }
{
    &units[from..]
}
