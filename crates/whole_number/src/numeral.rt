// Whole numbers from digits, and as texts.
ghost use Rattle.std.specs.Prelude.{◌≡◌, ◌≤◌, ◌+◌, IfOk, min};
ghost use Rattle.std.specs.Fmt.{signed_decimal};
ghost use Rattle.utf16_text.specs.Digits.{value_of};
ghost use Rattle.whole_number.specs.Whole.{whole_or_none};
ghost use Rattle.whole_number.specs.declared.whole.TheConstants.{LARGEST};

use crate::{LARGEST, Whole};
use std::alloc::Global;
use utf16_text::{Memory, Text, digit_of};

/// The number that digits spell in a base of at most 36, or 2^53 where that is less.
pub fn capped_value(base: u64, digits: &[u16]) -> u64
    requires { base ≤ 36 }
    ensures { result ≡ min (value_of base digits.now) (LARGEST + 1) }
{
    let mut value = 0;
    for digit in digits {
        value = (value * base + u64::from(digit_of(*digit))).min(LARGEST + 1);
    }
    value
}

impl Whole {
    /// The number that digits spell in a base of at most 36; None where it is over 2^53 - 1.
    pub fn from_digits(base: u64, digits: &[u16]) -> Option<Whole>
        requires { base ≤ 36 }
        ensures { result ≡ whole_or_none (value_of base digits.now) }
    {
        Whole::new(capped_value(base, digits) as i64)
    }

    /// The decimal digits, behind `-` where the number is below 0 (ECMA-262 5.1, section 9.8.1).
    pub fn to_text(self, alloc: Global) -> Result<Text, Memory>
        ensures { IfOk result (λ t. t ≡ signed_decimal self) }
    {
        let mut digits = [0; 17];
        let count = self.write_text(&mut digits);
        Text::from_latin_1(alloc, &digits[..count])
    }
}
