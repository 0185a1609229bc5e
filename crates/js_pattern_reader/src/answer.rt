// Refusals.
use thiserror::Error;
use utf16_text::Memory;

/// Why a pattern isn't read. The first refusal in the order of reading counts.
#[derive(Clone, Copy, Debug, PartialEq, Eq, Error)]
pub enum PatternAnswer {
    /// It is no pattern.
    #[error("no pattern")]
    Bad,
    /// It is a pattern of the standard, or near to one, that isn't supported.
    #[error("pattern not supported")]
    Unsupported,
    /// Memory was refused.
    #[error("out of memory")]
    Memory,
}

impl From<Memory> for PatternAnswer {
    ghost use Rattle.std.specs.Prelude.{◌≡◌};
    ghost use Rattle.js_pattern_reader.specs.declared.answer.PatternAnswer.TheVariants as answer;

    ghost from_gives = { λ _ e. e ≡ answer.Memory };

    fn from(_memory: Memory) -> PatternAnswer {
        PatternAnswer::Memory
    }
}
