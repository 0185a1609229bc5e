// The numbers, names and walks of the built-in functions that code runs, and which of them construct.
ghost use Rattle.std.specs.Prelude.{◌≡◌, option_map, slice_get};
ghost use Rattle.js_evaluation.specs.NativeTable as spec;

use crate::rows::{native_row, natives};
use heap_values::BuiltIn;
use js_evaluation::{Called, Native, NativeRow, PlainNative, Walk};

/// The native of a number. None where no native has it.
pub fn native_of(number: u16) -> Option<Native>
    ensures { result ≡ spec.native_of number }
{
    native_at(natives(), number as usize)
}

/// The native of the row in a place, counted from 0.
fn native_at(rows: &'static [NativeRow], place: usize) -> Option<Native>
    ensures { result ≡ option_map (λ row. row.0) (slice_get rows.now place) }
{
    match rows.get(place) {
        None => None,
        Some(row) => Some(row.0),
    }
}

/// The name by which a fault speaks of a native, one unit a byte: that of a method stands behind the name of its
/// object.
pub fn name_of(native: Native) -> &'static [u8]
    ensures { result.now ≡ spec.name_of native }
{
    native_row(native).1.as_bytes()
}

/// The name by which a fault speaks of a native; nothing where there is none.
pub fn native_name(native: Option<Native>) -> &'static [u8]
    ensures { result.now ≡ spec.native_name native }
{
    match native {
        None => b"",
        Some(native) => name_of(native),
    }
}

/// What a native goes over before it works.
pub fn walk_of(native: Native) -> Walk
    ensures { result ≡ spec.walk_of native }
{
    native_row(native).5
}

/// The prototype of the errors that a native makes (ECMA-262 5.1, sections 15.11.1 and 15.11.7). None where it makes
/// none.
pub fn error_prototype(native: PlainNative) -> Option<BuiltIn>
    ensures { result ≡ spec.error_prototype native }
{
    match native {
        PlainNative::Error => Some(BuiltIn::ErrorPrototype),
        PlainNative::TypeError => Some(BuiltIn::TypeErrorPrototype),
        PlainNative::RangeError => Some(BuiltIn::RangeErrorPrototype),
        PlainNative::ReferenceError => Some(BuiltIn::ReferenceErrorPrototype),
        _ => None,
    }
}

/// Whether `new` may stand before a native.
pub fn constructs(native: Option<Native>) -> bool
    ensures { result ≡ spec.constructs native }
{
    match native {
        None => false,
        Some(native) => matches!(native_row(native).2, Called::Constructor),
    }
}
