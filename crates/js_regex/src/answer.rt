// Why a search ends without an answer.
use thiserror::Error;
use utf16_text::Memory;

/// Why a search gives no answer.
#[derive(Clone, Copy, Debug, PartialEq, Eq, Error)]
pub enum FindAnswer {
    /// The search costs more than there is fuel.
    #[error("out of fuel")]
    Spent,
    /// Memory was refused.
    #[error("out of memory")]
    Memory,
}

impl From<Memory> for FindAnswer {
    ghost use Rattle.std.specs.Prelude.{◌≡◌};
    ghost use Rattle.js_regex.specs.declared.answer.FindAnswer.TheVariants as answer;

    ghost from_gives = { λ _ e. e ≡ answer.Memory };

    fn from(_memory: Memory) -> FindAnswer {
        FindAnswer::Memory
    }
}
