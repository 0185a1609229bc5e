// Why a heap refuses a call.
use std::alloc::AllocError;
use thiserror::Error;
use utf16_text::Memory;

/// Why a heap refuses a call. The heap is then as it was.
#[derive(Clone, Copy, Debug, PartialEq, Eq, Error)]
pub enum HeapAnswer {
    /// A text of more than 262,144 units would become a value.
    #[error("the text is too long")]
    StringTooLong,
    /// The units of the texts that this run made would pass 16,777,216.
    #[error("too many units of text were made")]
    TextSpent,
    /// The length of an array would pass 100,000.
    #[error("the array is too long")]
    ArrayTooLong,
    /// The cells of this run would pass 2,000,000.
    #[error("the heap is full")]
    HeapFull,
    /// What would become an array's length is no whole number from 0.
    #[error("invalid array length")]
    BadLength,
    /// Memory was refused.
    #[error("out of memory")]
    Memory,
}

impl From<Memory> for HeapAnswer {
    ghost use Rattle.std.specs.Prelude.{◌≡◌};
    ghost use Rattle.heap_values.specs.declared.answer.HeapAnswer.TheVariants as answer;

    ghost from_gives = { λ _ a. a ≡ answer.Memory };

    fn from(_memory: Memory) -> HeapAnswer {
        HeapAnswer::Memory
    }
}

impl From<AllocError> for HeapAnswer {
    ghost use Rattle.std.specs.Prelude.{◌≡◌};
    ghost use Rattle.heap_values.specs.declared.answer.HeapAnswer.TheVariants as answer;

    ghost from_gives = { λ _ a. a ≡ answer.Memory };

    fn from(_error: AllocError) -> HeapAnswer {
        HeapAnswer::Memory
    }
}
