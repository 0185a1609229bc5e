// Why a script isn't read.
ghost use Rattle.std.specs.Prelude.{◌≡◌};
ghost use Rattle.js_tree.specs.declared.refusal.ReadAnswer.TheVariants as answers;

use crate::Place;
use std::alloc::{AllocError, AllocFailed};
use thiserror::Error;
use utf16_text::Memory;

/// What is wrong with a script.
#[derive(Clone, Copy, Debug, PartialEq, Eq, Error)]
pub enum ReadKind {
    /// Units that are no token.
    #[error("bad token")]
    BadToken,
    /// A token that no production allows where it stands.
    #[error("unexpected token")]
    Unexpected,
    /// More nesting than the limit.
    #[error("nested too deep")]
    TooDeep,
    /// A number literal with a fraction or an exponent.
    #[error("number literal with a fraction")]
    FractionLiteral,
    /// A form of the standard that this profile leaves out.
    #[error("unsupported form")]
    Unsupported,
}

/// Why a script isn't read: its first refusal and where it stands, or want of memory.
#[derive(Clone, Copy, Debug, PartialEq, Eq, Error)]
pub enum ReadAnswer {
    #[error("{0} at {1}")]
    Refused(ReadKind, Place),
    #[error("out of memory")]
    Memory,
}

impl From<Memory> for ReadAnswer {
    ghost from_gives = { λ _ e. e ≡ answers.Memory };

    fn from(_error: Memory) -> ReadAnswer {
        ReadAnswer::Memory
    }
}

impl From<AllocError> for ReadAnswer {
    ghost from_gives = { λ _ e. e ≡ answers.Memory };

    fn from(_error: AllocError) -> ReadAnswer {
        ReadAnswer::Memory
    }
}

impl<T: Drop> From<AllocFailed<T>> for ReadAnswer {
    ghost from_gives = { λ _ e. e ≡ answers.Memory };

    fn from(_error: AllocFailed<T>) -> ReadAnswer {
        ReadAnswer::Memory
    }
}
