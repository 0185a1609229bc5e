// What is said of a refusal.
ghost use Rattle.std.specs.Prelude.{◌≡◌, ◌≤◌, IfOk, length, map};
ghost use Rattle.utf16_text.specs.declared.limits.TheConstants.{LONGEST_FILE};
ghost use Rattle.js_forms.specs.Forms as spec;

use crate::forms::{ENDED, FORMS, FormRow, OTHERWISE};
use crate::pieces::{first_piece, last_piece};
use crate::places::units_before;
use js_lexer::is_spelled;
use js_tree::{Place, ReadKind};
use std::alloc::Global;
use utf16_text::{Memory, Text, trimmed};

/// The line of a refusal of this script: its place, its name, and what to write instead, which is told by what stands
/// at its place and right before it.
pub fn refusal_line(
    alloc: Global,
    kind: ReadKind,
    place: Place,
    source: &Text,
) -> Result<Vec<u8>, Memory>
    requires { length source.now ≤ LONGEST_FILE }
    ensures { IfOk result (λ line. line.items ≡ spec.refusal_line (kind, place) source.now) }
{
    let name = kind_name(kind);
    let advice = advice_on(kind, place, source.units());
    let text = format!(in alloc; "{place}: {name}: {advice}\n")?;
    Ok(text.into_bytes())
}

fn kind_name(kind: ReadKind) -> &'static str
    ensures { result.now ≡ spec.kind_name kind }
{
    match kind {
        ReadKind::BadToken => "BadToken",
        ReadKind::Unexpected => "Unexpected",
        ReadKind::TooDeep => "TooDeep",
        ReadKind::FractionLiteral => "FractionLiteral",
        ReadKind::Unsupported => "Unsupported",
    }
}

/// What to write instead of what is refused at this place.
pub fn advice_on(kind: ReadKind, place: Place, units: &[u16]) -> &'static str
    requires { length units.now ≤ LONGEST_FILE }
    ensures { result.now ≡ spec.advice_on kind place units.now }
{
    let (before, from) = units.split_at(units_before(place, units));
    if has_ended(kind, from) {
        return ENDED;
    }
    advice_among(
        forms(),
        kind,
        last_piece(trimmed(before)),
        first_piece(from),
    )
}

fn forms() -> &'static [FormRow]
    ensures { map spec.form_read result.now ≡ spec.forms }
{
    FORMS
}

/// What the first row says that fits.
fn advice_among(
    rows: &'static [FormRow],
    kind: ReadKind,
    last: &[u16],
    first: &[u16],
) -> &'static str
    ensures { result.now ≡ spec.advice_among (map spec.form_read rows.now) kind last.now first.now }
{
    let mut left = rows;
    while let [row, rest @ ..] = left {
        if fits(row, kind, last, first) {
            return row.3;
        }
        left = rest;
    }
    OTHERWISE
}

fn fits(row: &FormRow, kind: ReadKind, last: &[u16], first: &[u16]) -> bool
    ensures { result ≡ spec.fits (spec.form_read row.now) kind last.now first.now }
{
    is_same(row.0, kind) && may_be(row.1, last) && may_be(row.2, first)
}

/// Whether the units are those of this ASCII text, which says nothing where it is empty.
fn may_be(ascii: &str, units: &[u16]) -> bool
    ensures { result ≡ spec.may_be ascii.now units.now }
{
    match ascii.as_bytes() {
        [] => true,
        [_, ..] => is_spelled(units, ascii),
    }
}

fn is_same(a: ReadKind, b: ReadKind) -> bool
    ensures { result ≡ spec.is_same a b }
{
    a == b
}

/// Whether the script ends where something more is expected.
fn has_ended(kind: ReadKind, from: &[u16]) -> bool
    ensures { result ≡ spec.has_ended kind from.now }
{
    match from {
        [] => is_unexpected(kind),
        [_, ..] => false,
    }
}

fn is_unexpected(kind: ReadKind) -> bool
    ensures { result ≡ spec.is_unexpected kind }
{
    matches!(kind, ReadKind::Unexpected)
}
