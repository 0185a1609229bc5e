// Names that are array indexes.
ghost use Rattle.std.specs.Prelude.{◌≡◌, IfOk};
ghost use Rattle.std.specs.Fmt.{decimal};
ghost use Rattle.heap_elements.specs.Names.{array_index as index_of};

use std::alloc::Global;
use utf16_text::{Memory, Text};
use whole_number::Whole;

/// The array index that a name is (ECMA-262 5.1, section 15.4): its number, where the name is a plain decimal numeral
/// below 2^32 - 1.
pub fn array_index(name: &Text) -> Option<u32>
    ensures { result ≡ index_of name.now }
{
    let units = name.units();
    if units.is_empty() || units.len() > 10 {
        return None;
    }
    if units[0] == 48 && units.len() > 1 {
        return None;
    }
    let mut value: u64 = 0;
    for unit in units {
        let digit = *unit;
        if digit < 48 || digit > 57 {
            return None;
        }
        value = value * 10 + u64::from(digit - 48);
    }
    if value < 4294967295 {
        Some(value as u32)
    } else {
        None
    }
}

/// An array index as a name: its decimal numeral.
pub fn index_name(alloc: Global, index: u32) -> Result<Text, Memory>
    ensures { IfOk result (λ name. name ≡ decimal index) }
{
    Whole::from(index).to_text(alloc)
}
