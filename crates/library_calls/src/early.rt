// Ends of a call before its work is done.
ghost use Rattle.std.specs.Prelude.{Err};
ghost use Rattle.library_calls.specs.Told as spec;
ghost use Rattle.library_calls.specs.Told.{Comes, Tells};

use crate::told::Told;
use utf16_text::Memory;

/// Why a call ends before its work is done.
#[derive(Drop)]
pub(crate) enum Early {
    /// An input is refused, and this is told of it.
    Told(Told),
    Memory,
}

impl Early {
    /// What is told.
    pub(crate) fn told(self) -> Result<Told, Memory>
        ensures { (told : spec.Told) → Comes told (Err self) → Tells told result }
    {
        match self {
            Early::Told(told) => Ok(told),
            Early::Memory => Err(Memory),
        }
    }
}

impl From<Memory> for Early {
    ghost use Rattle.std.specs.Prelude.{◌≡◌};
    ghost use Rattle.library_calls.specs.declared.early.Early.TheVariants as early;

    ghost from_gives = { λ _ e. e ≡ early.Memory };

    fn from(_: Memory) -> Early {
        Early::Memory
    }
}
