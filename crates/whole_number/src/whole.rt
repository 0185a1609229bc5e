// The whole number, its arithmetic and its conversions.
ghost use Rattle.std.specs.Prelude.{◌≡◌, ◌≤◌, ◌++◌, ◌+ℤ◌, ◌-ℤ◌, ◌*ℤ◌, ◌↔◌, IsSome, IfSome, length, drop};
ghost use Rattle.std.specs.Fmt.{signed_decimal};
ghost use Rattle.whole_number.specs.Whole.{IsWhole, whole_of, quotient_of, remainder_of, int32_of, uint32_of};

use crate::WholeAnswer;
use itoa::Buffer;
use std::marker::Model;

/// The largest whole number, 2^53 - 1.
pub const LARGEST: u64 = 9_007_199_254_740_991;

/// A whole number of at most 2^53 - 1 in size. There is one zero.
#[derive(Clone, Copy, Debug, PartialEq, Eq, PartialOrd, Ord)]
pub struct Whole {
    value: i64,
}

impl Model for Whole {
    ghost use Rattle.std.specs.Prelude.{ℤ};
    ghost use Rattle.whole_number.specs.Whole.{IsWhole};

    ghost Value = { ℤ };

    ghost view = { λ w. w.value };

    ghost invariant = { λ w. IsWhole w.value };

    ghost inverse = { λ n. record { value = n } };
}

impl Whole {
    /// The number, where it is at most 2^53 - 1 in size.
    pub fn new(value: i64) -> Option<Whole>
        ensures some { IsSome result ↔ IsWhole value }
        ensures value { IfSome result (λ w. w ≡ value) }
    {
        if value < -(LARGEST as i64) || value > LARGEST as i64 {
            return None;
        }
        Some(Whole { value })
    }

    /// The number itself.
    pub fn get(self) -> i64
        ensures value { result ≡ self }
        ensures whole { IsWhole result }
    {
        self.value
    }

    /// The sum (ECMA-262 5.1, section 11.6.3). Range where it is too large.
    pub fn add(self, other: Whole) -> Result<Whole, WholeAnswer>
        ensures { result ≡ whole_of (self +ℤ other) }
    {
        within(self.value + other.value)
    }

    /// The difference (ECMA-262 5.1, section 11.6.3). Range where it is too large.
    pub fn sub(self, other: Whole) -> Result<Whole, WholeAnswer>
        ensures { result ≡ whole_of (self -ℤ other) }
    {
        within(self.value - other.value)
    }

    /// The product (ECMA-262 5.1, section 11.5.1). Range where it is too large.
    pub fn mul(self, other: Whole) -> Result<Whole, WholeAnswer>
        ensures { result ≡ whole_of (self *ℤ other) }
    {
        match self.value.checked_mul(other.value) {
            None => Err(WholeAnswer::Range),
            Some(product) => within(product),
        }
    }

    /// The quotient (ECMA-262 5.1, section 11.5.2). DivisionByZero by 0, and Fraction where it isn't whole.
    pub fn div(self, other: Whole) -> Result<Whole, WholeAnswer>
        ensures { result ≡ quotient_of self other }
    {
        if other.value == 0 {
            return Err(WholeAnswer::DivisionByZero);
        }
        if self.value % other.value != 0 {
            return Err(WholeAnswer::Fraction);
        }
        within(self.value / other.value)
    }

    /// The remainder, with the dividend's sign (ECMA-262 5.1, section 11.5.3). DivisionByZero by 0.
    pub fn rem(self, other: Whole) -> Result<Whole, WholeAnswer>
        ensures { result ≡ remainder_of self other }
    {
        if other.value == 0 {
            return Err(WholeAnswer::DivisionByZero);
        }
        within(self.value % other.value)
    }

    /// The number modulo 2^32, from 0 (ECMA-262 5.1, section 9.6).
    pub fn to_uint32(self) -> u32
        ensures { result ≡ uint32_of self }
    {
        self.value.rem_euclid(4294967296) as u32
    }

    /// The number modulo 2^32, from -2^31 (ECMA-262 5.1, section 9.5).
    pub fn to_int32(self) -> i32
        ensures { result ≡ int32_of self }
    {
        self.to_uint32().cast_signed()
    }

    /// Writes the decimal digits, behind `-` where the number is below 0, to the front of `out`, and answers how many
    /// bytes that is (ECMA-262 5.1, section 9.8.1). The bytes behind them stay.
    pub fn write_text(self, out: &mut [u8; 17]) -> usize
        ensures count { result ≡ length (signed_decimal self) }
        ensures written { out.new ≡ signed_decimal self ++ drop result out.old }
    {
        let mut buffer = Buffer::new();
        let text = buffer.format(self.value).as_bytes();
        write_front(out, text);
        text.len()
    }
}

impl From<u32> for Whole {
    ghost use Rattle.std.specs.Prelude.{◌≡◌, pos};

    ghost from_gives = { λ n w. w ≡ pos n };

    fn from(value: u32) -> Whole {
        Whole {
            value: i64::from(value),
        }
    }
}

impl From<i32> for Whole {
    ghost use Rattle.std.specs.Prelude.{◌≡◌};

    ghost from_gives = { λ n w. w ≡ n };

    fn from(value: i32) -> Whole {
        Whole {
            value: i64::from(value),
        }
    }
}

/// The number, where it isn't too large.
fn within(value: i64) -> Result<Whole, WholeAnswer>
    ensures { result ≡ whole_of value }
{
    match Whole::new(value) {
        None => Err(WholeAnswer::Range),
        Some(whole) => Ok(whole),
    }
}

// The bytes behind those that are written stay.
fn write_front(out: &mut [u8; 17], text: &[u8])
    requires { length text.now ≤ 17 }
    ensures { out.new ≡ text.now ++ drop (length text.now) out.old }
{
    out[..text.len()].copy_from_slice(text);
}
