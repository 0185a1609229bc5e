// Runs of digits.
ghost use Rattle.std.specs.Prelude.{◌≡◌};
ghost use Rattle.std.specs.List.{list_all};
ghost use Rattle.utf16_text.specs.Digits.{is_digit, is_hexadecimal};
ghost use Rattle.js_convert.specs.Units.{are_digits, are_hexadecimal, behind_digits};

use utf16_text::{is_digit, is_hexadecimal};

/// Whether there is at least one digit, and nothing else.
pub(crate) fn are_digits(units: &[u16]) -> bool
    ensures { result ≡ are_digits units.now }
{
    !units.is_empty() && all_digits(units)
}

fn all_digits(units: &[u16]) -> bool
    ensures { result ≡ list_all is_digit units.now }
{
    units.iter().all(|unit| is_digit(*unit))
}

/// Whether there is at least one hexadecimal digit, and nothing else.
pub(crate) fn are_hexadecimal(units: &[u16]) -> bool
    ensures { result ≡ are_hexadecimal units.now }
{
    !units.is_empty() && all_hexadecimal(units)
}

fn all_hexadecimal(units: &[u16]) -> bool
    ensures { result ≡ list_all is_hexadecimal units.now }
{
    units.iter().all(|unit| is_hexadecimal(*unit))
}

/// What stands behind the digits at the front.
pub(crate) fn behind_digits(units: &[u16]) -> &[u16]
    ensures { result.now ≡ behind_digits units.now }
{
    let mut rest = units;
    while let Some((first, others)) = rest.split_first() {
        if !is_digit(*first) {
            break;
        }
        rest = others;
    }
    rest
}
