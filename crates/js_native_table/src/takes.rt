// What is handed to a built-in function, how many of these values it takes, and what becomes of each before it works.
ghost use Rattle.std.specs.Prelude.{◌≡◌};
ghost use Rattle.js_evaluation.specs.declared.native_row.Called.TheVariants as called;
ghost use Rattle.js_evaluation.specs.NativeTable as spec;

use crate::rows::native_row;
use js_evaluation::{Called, Conversion, Native, NativeRow, Taken};

/// Whether a native is a method: then its receiver is handed to it ahead of the arguments.
pub fn is_method(native: Native) -> bool
    ensures { result ≡ spec.is_method native }
{
    matches!(native_row(native).2, Called::Method(_))
}

/// How many of the values that are handed to a native it takes, of so many. Those behind the last are surplus, and
/// nothing becomes of them.
pub fn taken_by(native: Native, handed: usize) -> usize
    ensures { result ≡ spec.taken_by native handed }
{
    let row = native_row(native);
    match row.4 {
        Taken::Listed => listed(row),
        Taken::AtMost => handed.min(listed(row)),
        Taken::All(_) => handed,
    }
}

/// How many values a row lists: the arguments, and ahead of them the receiver of a method.
fn listed(row: &NativeRow) -> usize
    ensures { result ≡ spec.listed_in (spec.row_read row.now) }
{
    match row.2 {
        Called::Method(_) => row.3.len() + 1,
        _ => row.3.len(),
    }
}

/// What a native makes of the value in a place, counted from 0.
pub fn conversion_at(native: Native, place: usize) -> Conversion
    ensures { result ≡ spec.conversion_at native place }
{
    let row = native_row(native);
    match row.2 {
        Called::Method(receiver) => method_conversion(row, receiver, place),
        Called::Function => argument_conversion(row, place),
        Called::Constructor => argument_conversion(row, place),
    }
}

/// The receiver, and then the arguments.
fn method_conversion(row: &NativeRow, receiver: Conversion, place: usize) -> Conversion
    ensures { result ≡ spec.value_conversion (called.Method receiver) (spec.row_read row.now) place }
{
    match place.checked_sub(1) {
        None => receiver,
        Some(at) => argument_conversion(row, at),
    }
}

/// The argument in a place, counted from 0.
fn argument_conversion(row: &NativeRow, at: usize) -> Conversion
    ensures { result ≡ spec.argument_conversion (spec.row_read row.now) at }
{
    match row.3.get(at) {
        Some(conversion) => *conversion,
        None => behind_listed(row.4),
    }
}

fn behind_listed(taken: Taken) -> Conversion
    ensures { result ≡ spec.behind_listed taken }
{
    match taken {
        Taken::All(conversion) => conversion,
        _ => Conversion::Kept,
    }
}
