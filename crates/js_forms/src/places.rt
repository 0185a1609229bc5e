// The unit at a place.
ghost use Rattle.std.specs.Prelude.{◌≡◌, ◌≤◌, ◌<◌, ◌^◌, ◌+◌, length};
ghost use Rattle.utf16_text.specs.declared.limits.TheConstants.{LONGEST_FILE};
ghost use Rattle.js_forms.specs.Places as spec;

use js_tree::Place;
use utf16_text::is_line_terminator;

const LINE_FEED: u16 = 10;

const CARRIAGE_RETURN: u16 = 13;

/// How many units of a text stand before a place; all, where none stands at it.
pub fn units_before(place: Place, units: &[u16]) -> usize
    requires { length units.now ≤ LONGEST_FILE }
    ensures value { result ≡ spec.units_before place spec.first_place units.now }
    ensures within { result ≤ length units.now }
{
    let mut here = Place { line: 1, column: 1 };
    let mut left = units;
    let mut count = 0;
    while let [unit, others @ ..] = left {
        if is_same(here, place) {
            return count;
        }
        here = next_place(here, *unit, others);
        left = others;
        count += 1;
    }
    count
}

fn is_same(a: Place, b: Place) -> bool
    ensures { result ≡ spec.is_same a b }
{
    a.line == b.line && a.column == b.column
}

/// The place of the unit behind this one.
fn next_place(here: Place, unit: u16, others: &[u16]) -> Place
    requires line { here.line + 1 < 2 ^ 32 }
    requires column { here.column + 1 < 2 ^ 32 }
    ensures value { result ≡ spec.next_place here unit others.now }
    ensures line { result.line ≤ here.line + 1 }
    ensures column { result.column ≤ here.column + 1 }
{
    if unit == CARRIAGE_RETURN && begins_line_feed(others) {
        return here;
    }
    if is_line_terminator(unit) {
        return Place {
            line: here.line + 1,
            column: 1,
        };
    }
    Place {
        line: here.line,
        column: here.column + 1,
    }
}

fn begins_line_feed(units: &[u16]) -> bool
    ensures { result ≡ spec.begins_line_feed units.now }
{
    match units {
        [first, ..] => *first == LINE_FEED,
        [] => false,
    }
}
