// Why an operator has no value.
use thiserror::Error;
use utf16_text::Memory;
use whole_number::WholeAnswer;

/// Why an operator has no value here.
#[derive(Clone, Copy, Debug, PartialEq, Eq, Error)]
pub enum ConvertAnswer {
    /// A number would pass 2^53 - 1 in size, or an operand is infinite.
    #[error("the number is too large")]
    NumberRange,
    /// A quotient isn't whole, or an operand is a numeral with a point or an exponent.
    #[error("the number isn't whole")]
    Fraction,
    /// An operand of arithmetic is not a number.
    #[error("not a number")]
    NotANumber,
    /// Division by 0.
    #[error("division by zero")]
    DivisionByZero,
    /// Memory was refused.
    #[error("out of memory")]
    Memory,
}

impl From<Memory> for ConvertAnswer {
    ghost use Rattle.std.specs.Prelude.{◌≡◌};
    ghost use Rattle.js_convert.specs.declared.answer.ConvertAnswer.TheVariants as answer;

    ghost from_gives = { λ _ a. a ≡ answer.Memory };

    fn from(_memory: Memory) -> ConvertAnswer {
        ConvertAnswer::Memory
    }
}

impl From<WholeAnswer> for ConvertAnswer {
    ghost use Rattle.std.specs.Prelude.{◌≡◌};
    ghost use Rattle.js_convert.specs.Operators.{fault_of};

    ghost from_gives = { λ e a. a ≡ fault_of e };

    fn from(answer: WholeAnswer) -> ConvertAnswer {
        match answer {
            WholeAnswer::Range => ConvertAnswer::NumberRange,
            WholeAnswer::Fraction => ConvertAnswer::Fraction,
            WholeAnswer::DivisionByZero => ConvertAnswer::DivisionByZero,
        }
    }
}
