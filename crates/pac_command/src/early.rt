// Ends of a command before its work is done.
ghost use Rattle.std.specs.Prelude.{◌≡◌};
ghost use Rattle.pac_plan.specs.OutputView.{made};
ghost use Rattle.pac_command.specs.Steps.{said};

use pac_plan::Output;
use utf16_text::Memory;

/// Why a command ends before its work is done.
#[derive(Drop)]
pub(crate) enum Early {
    /// An input was not read or is refused, and this is said of it.
    Said(Output),
    Memory,
}

impl Early {
    /// What is said.
    pub(crate) fn output(self) -> Result<Output, Memory>
        ensures { made result ≡ said self }
    {
        match self {
            Early::Said(output) => Ok(output),
            Early::Memory => Err(Memory),
        }
    }
}

impl From<Memory> for Early {
    ghost use Rattle.std.specs.Prelude.{◌≡◌};
    ghost use Rattle.pac_command.specs.declared.early.Early.TheVariants as early;

    ghost from_gives = { λ _ e. e ≡ early.Memory };

    fn from(_: Memory) -> Early {
        Early::Memory
    }
}
