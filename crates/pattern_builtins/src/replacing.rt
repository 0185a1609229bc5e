// Matches of a pattern replaced (ECMA-262 5.1, section 15.5.4.11).
ghost use Rattle.std.specs.Prelude.{◌≡◌, ◌+◌, ◌<◌, ◌≤◌, ◌≢◌, [], IfOk, IfSome, IfNone, MatchOption, None, Some, length, map, slice_get, slice_range};
ghost use Rattle.js_pattern.specs.Within.{SpanWithin, SpansWithin};
ghost use Rattle.js_regex.specs.Finds.{MatchWithin};
ghost use Rattle.pattern_builtins.specs.Pieces.{InOrder, found_in};
ghost use Rattle.pattern_builtins.specs.Putting.{Grows};
ghost use Rattle.pattern_builtins.specs.Replacing.{
  BeginsWith,
  expanded,
  group_text,
  made_text,
  named,
  replaced_from,
};
ghost use Rattle.pattern_builtins.specs.Skipping.{Rows, last};
ghost use Rattle.utf16_text.specs.declared.limits.TheConstants.{LONGEST_TEXT};

use crate::matches::MatchList;
use crate::skipping::{next_full, rows_of};
use js_regex::{Match, Span};
use std::alloc::{AllocError, Global};
use utf16_text::{LONGEST_TEXT, Memory, Text};

pub(crate) const DOLLAR: u16 = 36;

pub(crate) const AMPERSAND: u16 = 38;

pub(crate) const APOSTROPHE: u16 = 39;

pub(crate) const ONE: u16 = 49;

pub(crate) const NINE: u16 = 57;

pub(crate) const GRAVE: u16 = 96;

/// The text with a replacement in place of each of these matches, as `replace` makes it (ECMA-262 5.1, section
/// 15.5.4.11). In the replacement `$$` is `$`, `$&` the match, `` $` `` what stands before it, `$'` what stands behind it,
/// and `$1` to `$9` what a group has matched, where the pattern has it. None comes exactly where the text would have more
/// than 262,144 units.
pub fn replace(
    alloc: Global,
    text: &Text,
    matches: &MatchList,
    by: &Text,
) -> Result<Option<Text>, Memory>
    requires { InOrder (length text.now) 0 matches.now }
    ensures { IfOk result (λ made. made ≡ made_text (replaced_from text.now by.now 0 (map found_in matches.now))) }
{
    replaced(alloc, text.units(), matches.as_slice(), by.units())
}

// The text with a replacement in place of each match. None where it would be too long.
fn replaced(
    alloc: Global,
    text: &[u16],
    matches: &[Match],
    by: &[u16],
) -> Result<Option<Text>, Memory>
    requires { InOrder (length text.now) 0 matches.now }
    ensures { IfOk result (λ made. made ≡ made_text (replaced_from text.now by.now 0 (map found_in matches.now))) }
{
    let rows = rows_of(alloc, by)?;
    let mut all = Vec::with_capacity(alloc, text.len())?;
    let mut from = 0;
    let mut left = matches;
    while let [found, more @ ..] = left {
        if !put(&mut all, &text[from..found.from])? {
            return Ok(None);
        }
        if !expand(&mut all, text, found, by, &rows)? {
            return Ok(None);
        }
        from = found.to;
        left = more;
    }
    if !put(&mut all, &text[from..])? {
        return Ok(None);
    }
    Ok(Some(Text::from_vec(all)?))
}

// Puts a replacement behind a text, with what it names of a match put in. False where the text would be too long. It goes
// from one part that isn't empty to the next.
fn expand(
    all: &mut Vec<u16>,
    text: &[u16],
    found: &Match,
    by: &[u16],
    rows: &[usize],
) -> Result<bool, AllocError>
    requires within { MatchWithin (length text.now) found.now }
    requires short { length all.old.items ≤ LONGEST_TEXT }
    requires rows { Rows by.now (length by.now + 1) rows.now }
    ensures { IfOk result (λ fits. Grows (expanded text.now (found_in found.now) by.now) all.old.items fits all.new.items) }
{
    let mut left = next_full(text, found, by, rows, by.len());
    while let Some((piece, more)) = next_piece(text, found, &by[by.len() - left..]) {
        if !put(all, piece)? {
            return Ok(false);
        }
        left = next_full(text, found, by, rows, more.len());
    }
    Ok(true)
}

// The first piece of a replacement, and the rest of it.
fn next_piece<'a>(text: &'a [u16], found: &Match, by: &'a [u16]) -> Option<(&'a [u16], &'a [u16])>
    requires { MatchWithin (length text.now) found.now }
    ensures piece { IfSome result (λ p. BeginsWith text.now (found_in found.now) by.now p.0.now p.1.now) }
    ensures shorter { IfSome result (λ p. length p.1.now < length by.now) }
    ensures rest { IfSome result (λ p. p.1.now ≡ last (length p.1.now) by.now) }
    ensures end { IfNone result (by.now ≡ []) }
{
    match by {
        [DOLLAR, DOLLAR, more @ ..] => Some((&by[..1], more)),
        [DOLLAR, unit, more @ ..] => match named(text, found, *unit) {
            Some(piece) => Some((piece, more)),
            None => Some((&by[..2], more)),
        },
        [_, more @ ..] => Some((&by[..1], more)),
        [] => None,
    }
}

// What `$` and a unit stand for, which isn't `$` itself. None where they stand for themselves.
pub(crate) fn named<'a>(text: &'a [u16], found: &Match, unit: u16) -> Option<&'a [u16]>
    requires within { MatchWithin (length text.now) found.now }
    requires other { unit ≢ 36 }
    ensures { MatchOption result (named text.now (found_in found.now) unit ≡ None) (λ p. named text.now (found_in found.now) unit ≡ Some p.now) }
{
    match unit {
        AMPERSAND => Some(&text[found.from..found.to]),
        GRAVE => Some(&text[..found.from]),
        APOSTROPHE => Some(&text[found.to..]),
        ONE..=NINE => group_text(text, found.groups.as_slice(), usize::from(unit - ONE)),
        _ => None,
    }
}

// What a group has matched: nothing where it is unset. None where there is no such group.
fn group_text<'a>(text: &'a [u16], groups: &[Option<Span>], number: usize) -> Option<&'a [u16]>
    requires { SpansWithin (length text.now) groups.now }
    ensures { MatchOption result (group_text text.now (slice_get groups.now number) ≡ None) (λ p. group_text text.now (slice_get groups.now number) ≡ Some p.now) }
{
    match group(groups, number) {
        None => None,
        Some(None) => Some(&[]),
        Some(Some(span)) => Some(part(text, span)),
    }
}

fn group(groups: &[Option<Span>], number: usize) -> Option<Option<Span>>
    ensures { result ≡ slice_get groups.now number }
{
    groups.get(number).copied()
}

fn part(text: &[u16], span: Span) -> &[u16]
    requires { SpanWithin (length text.now) (Some span) }
    ensures { result.now ≡ slice_range text.now span.from span.to }
{
    &text[span.from..span.to]
}

// Puts a piece behind a text. False where it would be too long.
fn put(all: &mut Vec<u16>, piece: &[u16]) -> Result<bool, AllocError>
    requires { length all.old.items ≤ LONGEST_TEXT }
    ensures { IfOk result (λ fits. Grows piece.now all.old.items fits all.new.items) }
{
    if piece.len() > LONGEST_TEXT - all.len() {
        return Ok(false);
    }
    all.extend_from_slice(piece)?;
    Ok(true)
}
