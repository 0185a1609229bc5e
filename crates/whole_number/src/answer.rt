// Why a result is no whole number.
use thiserror::Error;

/// Why the result of an operation is no number of scripts.
#[derive(Clone, Copy, Debug, PartialEq, Eq, Error)]
pub enum WholeAnswer {
    /// The result is larger than 2^53 - 1 in size.
    #[error("the number is too large")]
    Range,
    /// The quotient isn't whole.
    #[error("the quotient isn't whole")]
    Fraction,
    /// The divisor is 0.
    #[error("division by zero")]
    DivisionByZero,
}
