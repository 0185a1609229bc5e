// Classes.
ghost use Rattle.std.specs.Prelude.{◌≡◌, length};
ghost use Rattle.js_pattern_reader.specs.Answers.{Gives, Reads, seen_units};
ghost use Rattle.js_pattern_reader.specs.Classes.{
  behind_backslash,
  behind_dash,
  class_atom,
  class_by,
  class_end,
  class_item,
  class_of,
  item_of,
  items_from,
  range_of,
  unless_end,
};

use crate::PatternAnswer;
use crate::escapes::{ClassAtom, Read, class_escape_at};
use js_pattern::{Class, ClassItem, ClassItemList};
use std::alloc::Global;
use utf16_text::List;

fn behind_backslash<'a>(units: &'a [u16]) -> Read<'a, ClassAtom>
    ensures { Reads (behind_backslash units.now) result }
{
    match units.split_first() {
        None => Err(PatternAnswer::Bad),
        Some((unit, rest)) => class_escape_at(*unit, rest),
    }
}

/// Any unit but a backslash, or an escape.
fn class_atom<'a>(units: &'a [u16]) -> Read<'a, ClassAtom>
    ensures { Reads (class_atom units.now) result }
{
    match units.split_first() {
        None => Err(PatternAnswer::Bad),
        Some((unit, rest)) => {
            if *unit == 92 {
                behind_backslash(rest)
            } else {
                Ok((ClassAtom::Unit(*unit), rest))
            }
        }
    }
}

fn item_of(atom: ClassAtom) -> ClassItem
    ensures { result ≡ item_of atom }
{
    match atom {
        ClassAtom::Unit(unit) => ClassItem::Range(unit, unit),
        ClassAtom::Set(set) => ClassItem::Set(set),
    }
}

/// Both ends are units, in order.
fn range_of(first: ClassAtom, last: ClassAtom) -> Result<ClassItem, PatternAnswer>
    ensures { Gives (λ i. i) result (range_of first last) }
{
    match (first, last) {
        (ClassAtom::Unit(first), ClassAtom::Unit(last)) => {
            if first <= last {
                Ok(ClassItem::Range(first, last))
            } else {
                Err(PatternAnswer::Bad)
            }
        }
        _ => Err(PatternAnswer::Bad),
    }
}

/// Before `]` a `-` stands for itself.
fn unless_end(units: &[u16]) -> Option<&[u16]>
    ensures { seen_units result ≡ unless_end units.now }
{
    match units.split_first() {
        None => None,
        Some((unit, _)) => { if *unit == 93 { None } else { Some(units) } }
    }
}

/// The units behind the `-` of a range, where one is here.
fn behind_dash(units: &[u16]) -> Option<&[u16]>
    ensures { seen_units result ≡ behind_dash units.now }
{
    match units.split_first() {
        None => None,
        Some((unit, rest)) => { if *unit == 45 { unless_end(rest) } else { None } }
    }
}

/// An atom, or a range of two.
fn class_item<'a>(units: &'a [u16]) -> Read<'a, ClassItem>
    ensures { Reads (class_item units.now) result }
{
    let (atom, rest) = class_atom(units)?;
    match behind_dash(rest) {
        None => Ok((item_of(atom), rest)),
        Some(behind) => {
            let (last, rest) = class_atom(behind)?;
            Ok((range_of(atom, last)?, rest))
        }
    }
}

/// The units behind `]`, where it is here.
fn class_end(units: &[u16]) -> Option<&[u16]>
    ensures { seen_units result ≡ class_end units.now }
{
    match units.split_first() {
        None => None,
        Some((unit, rest)) => { if *unit == 93 { Some(rest) } else { None } }
    }
}

/// Items up to `]`.
fn items<'a>(alloc: Global, units: &'a [u16]) -> Read<'a, ClassItemList>
    ensures { Reads (items_from (length units.now) units.now) result }
{
    let mut items: ClassItemList = List::new(alloc);
    let mut rest = units;
    let mut turns = units.len();
    while turns > 0 {
        turns -= 1;
        match class_end(rest) {
            Some(behind) => return Ok((items, behind)),
            None => match class_item(rest) {
                Err(answer) => return Err(answer),
                Ok((item, behind)) => {
                    items.push(alloc, item)?;
                    rest = behind;
                }
            },
        }
    }
    Err(PatternAnswer::Bad)
}

fn class_by<'a>(alloc: Global, excludes: bool, units: &'a [u16]) -> Read<'a, Class>
    ensures { Reads (class_by excludes units.now) result }
{
    let (items, rest) = items(alloc, units)?;
    Ok((Class { excludes, items }, rest))
}

/// A class behind `[`; `^` turns it.
pub fn class_of<'a>(alloc: Global, units: &'a [u16]) -> Read<'a, Class>
    ensures { Reads (class_of units.now) result }
{
    match units.split_first() {
        None => Err(PatternAnswer::Bad),
        Some((unit, rest)) => {
            if *unit == 94 {
                class_by(alloc, true, rest)
            } else {
                class_by(alloc, false, units)
            }
        }
    }
}
