// What the tables say of names.
ghost use Rattle.std.specs.Prelude.{◌≡◌, map, bytes_eq};
ghost use Rattle.js_lint.specs.Tables as spec;

use crate::Advice;
use crate::standing::Standing;
use crate::tables::{GLOBALS, MEMBERS, MemberRow, NameRow, OBJECT_MEMBERS};
use utf16_text::Text;

/// What is known of a global name. None where it is built in nowhere.
pub(crate) fn global_standing(name: &Text) -> Option<Standing>
    ensures { result ≡ spec.standing_among spec.globals name.now }
{
    standing_among(globals(), name.units())
}

/// What to write in place of a property of this name, of whatever object.
pub(crate) fn member_advice(name: &Text) -> Option<Advice>
    ensures { result ≡ spec.missing_by (spec.standing_among spec.members name.now) }
{
    missing_by(standing_among(members(), name.units()))
}

/// What to write in place of a property of a global object.
pub(crate) fn object_advice(object: &Text, name: &Text) -> Option<Advice>
    ensures { result ≡ spec.advice_among spec.object_members object.now name.now }
{
    advice_among(object_members(), object.units(), name.units())
}

/// What to write in place of a name that is missing.
pub(crate) fn missing_by(standing: Option<Standing>) -> Option<Advice>
    ensures { result ≡ spec.missing_by standing }
{
    match standing {
        Some(Standing::Missing(advice)) => Some(advice),
        Some(Standing::Here) => None,
        Some(Standing::Constructor) => None,
        None => None,
    }
}

fn globals() -> &'static [NameRow]
    ensures { map spec.name_read result.now ≡ spec.globals }
{
    GLOBALS
}

fn members() -> &'static [NameRow]
    ensures { map spec.name_read result.now ≡ spec.members }
{
    MEMBERS
}

fn object_members() -> &'static [MemberRow]
    ensures { map spec.member_read result.now ≡ spec.object_members }
{
    OBJECT_MEMBERS
}

fn standing_among(rows: &'static [NameRow], name: &[u16]) -> Option<Standing>
    ensures { result ≡ spec.standing_among (map spec.name_read rows.now) name.now }
{
    let mut left = rows;
    while let [row, rest @ ..] = left {
        if is_spelled(name, row.0.as_bytes()) {
            return Some(row.1);
        }
        left = rest;
    }
    None
}

fn advice_among(rows: &'static [MemberRow], object: &[u16], name: &[u16]) -> Option<Advice>
    ensures { result ≡ spec.advice_among (map spec.member_read rows.now) object.now name.now }
{
    let mut left = rows;
    while let [row, rest @ ..] = left {
        if is_spelled(object, row.0.as_bytes()) && is_spelled(name, row.1.as_bytes()) {
            return Some(row.2);
        }
        left = rest;
    }
    None
}

/// Whether the units are those of an ASCII text.
pub(crate) fn is_spelled(units: &[u16], letters: &[u8]) -> bool
    ensures { result ≡ bytes_eq units.now letters.now }
{
    let mut left = units;
    let mut right = letters;
    loop {
        match (left, right) {
            ([], []) => return true,
            ([unit, units @ ..], [letter, letters @ ..]) if *unit == u16::from(*letter) => {
                left = units;
                right = letters;
            }
            _ => return false,
        }
    }
}
