// The next part of a replacement that isn't empty, from a table that is made once. So a match takes no longer than what
// it puts in, however many parts are empty. A place in a replacement is the number of units that are left there.
ghost use Rattle.std.specs.Prelude.{◌≡◌, ℕ, ◌+◌, ◌-◌, ◌*◌, ◌<◌, ◌≤◌, ◌↔◌, [], IsTrue, IfOk, Some, if◌then◌else◌, nat_eq, length, get_or};
ghost use Rattle.js_regex.specs.Finds.{MatchWithin};
ghost use Rattle.pattern_builtins.specs.Pieces.{found_in};
ghost use Rattle.pattern_builtins.specs.Replacing.{expanded, named};
ghost use Rattle.pattern_builtins.specs.Skipping.{AddsRow, Front, Further, Rows, kind_of, last, unit_of};

use crate::replacing::{AMPERSAND, APOSTROPHE, DOLLAR, GRAVE, NINE, ONE, named};
use js_regex::Match;
use std::alloc::{AllocError, Global};

const ZERO: u16 = 48;

// The kinds of parts: 1 to 9 are the groups, 10 is `$&`, 11 is `` $` `` and 12 is `$'`. 0 is what stands for itself.
const KINDS: u16 = 13;

// The fields of a row, one for each kind.
const ROW: usize = 13;

// A row for each place of a replacement: for each kind the place of the next part of that kind.
pub(crate) fn rows_of(alloc: Global, by: &[u16]) -> Result<Vec<usize>, AllocError>
    ensures { IfOk result (λ rows. Rows by.now (length by.now + 1) rows.items) }
{
    let mut rows = empty_row(alloc)?;
    for left in 0..by.len() {
        let (kind, size) = front(&by[by.len() - (left + 1)..]);
        add_row(&mut rows, kind, left + 1, left + 1 - size)?;
    }
    Ok(rows)
}

// At the end of a replacement no part is left.
fn empty_row(alloc: Global) -> Result<Vec<usize>, AllocError>
    ensures count { IfOk result (λ row. length row.items ≡ 13) }
    ensures zeros { IfOk result (λ row. (k : ℕ) → get_or row.items k 0 ≡ 0) }
{
    let mut row = Vec::new(alloc);
    for _ in 0..ROW {
        row.push(0)?;
    }
    Ok(row)
}

// The kind of the part at the front of a replacement, and how many units it has.
fn front(by: &[u16]) -> (u16, usize)
    requires { 0 < length by.now }
    ensures { Front by.now result.0 result.1 }
{
    match by {
        [DOLLAR, unit, ..] => (kind_of(*unit), 2),
        _ => (0, 1),
    }
}

fn kind_of(unit: u16) -> u16
    ensures { result ≡ kind_of unit }
{
    match unit {
        AMPERSAND => 10,
        GRAVE => 11,
        APOSTROPHE => 12,
        ONE..=NINE => unit - ZERO,
        _ => 0,
    }
}

fn unit_of(kind: u16) -> u16
    requires { kind < 13 }
    ensures { result ≡ unit_of kind }
{
    match kind {
        10 => AMPERSAND,
        11 => GRAVE,
        12 => APOSTROPHE,
        _ => ZERO + kind,
    }
}

// Adds the row of a place where a part of a kind stands, by the row behind that part.
fn add_row(rows: &mut Vec<usize>, kind: u16, place: usize, behind: usize) -> Result<(), AllocError>
    requires whole { length rows.old.items ≡ 13 * place }
    requires behind { behind < place }
    ensures { IfOk result (λ _. AddsRow kind place behind 13 rows.old.items rows.new.items) }
{
    for other in 0..KINDS {
        let next = field(rows, kind, other, place, behind);
        rows.push(next)?;
    }
    Ok(())
}

// A place is the next one of the kind of its part, and for any other kind it is as behind that part.
fn field(rows: &[usize], kind: u16, other: u16, place: usize, behind: usize) -> usize
    requires { 13 * behind + other < length rows.now }
    ensures { result ≡ (if nat_eq other kind then place else get_or rows.now (13 * behind + other) 0) }
{
    if other == kind {
        place
    } else {
        rows[ROW * behind + usize::from(other)]
    }
}

// The next place where a part isn't empty for a match, and 0 where all that is left is empty.
pub(crate) fn next_full(
    text: &[u16],
    found: &Match,
    by: &[u16],
    rows: &[usize],
    left: usize,
) -> usize
    requires within { MatchWithin (length text.now) found.now }
    requires rows { Rows by.now (length by.now + 1) rows.now }
    requires left { left ≤ length by.now }
    ensures same { expanded text.now (found_in found.now) (last result by.now) ≡ expanded text.now (found_in found.now) (last left by.now) }
    ensures behind { result ≤ left }
{
    let row = &rows[ROW * left..];
    let mut most = 0;
    for kind in 0..KINDS {
        most = further(text, found, kind, row[usize::from(kind)], most);
    }
    most
}

// The one of two places that is first, where the part of this kind at the other isn't empty for a match.
fn further(text: &[u16], found: &Match, kind: u16, next: usize, most: usize) -> usize
    requires within { MatchWithin (length text.now) found.now }
    requires kind { kind < 13 }
    ensures { Further text.now (found_in found.now) kind next most result }
{
    if next <= most || is_empty(text, found, kind) {
        most
    } else {
        next
    }
}

// Whether a part of a kind is empty for a match.
fn is_empty(text: &[u16], found: &Match, kind: u16) -> bool
    requires within { MatchWithin (length text.now) found.now }
    requires kind { kind < 13 }
    ensures { IsTrue result ↔ (named text.now (found_in found.now) (unit_of kind) ≡ Some []) }
{
    match named(text, found, unit_of(kind)) {
        Some(piece) => piece.is_empty(),
        None => false,
    }
}
