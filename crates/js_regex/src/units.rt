// Units, classes and words of a text.
ghost use Rattle.std.specs.Prelude.{◌≡◌, ◌-◌, ◌||◌, drop, slice_get, take};
ghost use Rattle.utf16_text.specs.Letters.{is_break_unit, lower_unit, upper_unit};
ghost use Rattle.js_pattern.specs.Leaves.{
  begins,
  has_unit,
  in_class,
  in_item,
  in_items,
  in_set,
  is_some_such,
  is_word,
  same_unit,
  unit_before,
};

use js_pattern::{Class, ClassItem, Set, is_word};
use utf16_text::is_line_terminator;

fn lower_case(unit: u16) -> u16
    ensures { result ≡ lower_unit unit }
{
    if unit >= 65 && unit <= 90 {
        unit + 32
    } else {
        unit
    }
}

fn upper_case(unit: u16) -> u16
    ensures { result ≡ upper_unit unit }
{
    if unit >= 97 && unit <= 122 {
        unit - 32
    } else {
        unit
    }
}

/// Whether two units are the same, or with case ignored the same ASCII letter.
pub(crate) fn same_unit(ignore_case: bool, unit: u16, other: u16) -> bool
    ensures { result ≡ same_unit ignore_case unit other }
{
    if ignore_case {
        lower_case(unit) == lower_case(other)
    } else {
        unit == other
    }
}

// Apart from the loop over a class, which would ask of each unit beforehand what sets it is in.
#[inline(never)]
fn in_set(set: Set, unit: u16) -> bool
    ensures { result ≡ in_set set unit }
{
    set.has(unit)
}

fn in_item(item: ClassItem, unit: u16) -> bool
    ensures { result ≡ in_item item unit }
{
    match item {
        ClassItem::Range(first, last) => first <= unit && unit <= last,
        ClassItem::Set(set) => in_set(set, unit),
    }
}

fn in_items(items: &[ClassItem], unit: u16) -> bool
    ensures { result ≡ in_items items.now unit }
{
    let mut left = items;
    while let Some((item, others)) = left.split_first() {
        if in_item(*item, unit) {
            return true;
        }
        left = others;
    }
    false
}

#[inline(never)]
fn has_either_case(items: &[ClassItem], unit: u16) -> bool
    ensures { result ≡ (in_items items.now (lower_unit unit) || in_items items.now (upper_unit unit)) }
{
    in_items(items, lower_case(unit)) || in_items(items, upper_case(unit))
}

fn has_unit(ignore_case: bool, items: &[ClassItem], unit: u16) -> bool
    ensures { result ≡ has_unit ignore_case items.now unit }
{
    in_items(items, unit) || ignore_case && has_either_case(items, unit)
}

/// Whether a class has a unit, or with case ignored the same ASCII letter in the other case.
pub(crate) fn in_class(ignore_case: bool, class: &Class, unit: u16) -> bool
    ensures { result ≡ in_class ignore_case class.now unit }
{
    class.excludes != has_unit(ignore_case, class.items.as_slice(), unit)
}

/// Whether a unit of a word stands at a place.
pub(crate) fn is_word_at(text: &[u16], place: usize) -> bool
    ensures { result ≡ is_some_such is_word (slice_get text.now place) }
{
    match text.get(place) {
        None => false,
        Some(unit) => is_word(*unit),
    }
}

/// Whether a unit of a word stands before a place.
pub(crate) fn is_word_before(text: &[u16], place: usize) -> bool
    ensures { result ≡ is_some_such is_word (unit_before text.now place) }
{
    place > 0 && is_word_at(text, place - 1)
}

/// Whether a line terminator stands at a place.
pub(crate) fn is_break_at(text: &[u16], place: usize) -> bool
    ensures { result ≡ is_some_such is_break_unit (slice_get text.now place) }
{
    match text.get(place) {
        None => false,
        Some(unit) => is_line_terminator(*unit),
    }
}

/// Whether a line terminator stands before a place.
pub(crate) fn is_break_before(text: &[u16], place: usize) -> bool
    ensures { result ≡ is_some_such is_break_unit (unit_before text.now place) }
{
    place > 0 && is_break_at(text, place - 1)
}

/// Whether a text begins with units.
pub(crate) fn begins(ignore_case: bool, units: &[u16], text: &[u16]) -> bool
    ensures { result ≡ begins ignore_case units.now text.now }
{
    let mut left = units;
    let mut rest = text;
    while let Some((unit, behind)) = left.split_first() {
        let Some((other, after)) = rest.split_first() else {
            return false;
        };
        if !same_unit(ignore_case, *unit, *other) {
            return false;
        }
        left = behind;
        rest = after;
    }
    true
}

/// The units from a place up to another one, as far as there are such.
pub(crate) fn part(text: &[u16], from: usize, to: usize) -> &[u16]
    ensures { result.now ≡ take (to - from) (drop from text.now) }
{
    let to = to.min(text.len());
    if from < to { &text[from..to] } else { &[] }
}
