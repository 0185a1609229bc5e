// Why a rule goes no further.
ghost use Rattle.std.specs.Prelude.{◌≡◌};
ghost use Rattle.heap_steps.specs.Works.{refusal};

use heap_values::HeapAnswer;
use js_evaluation::{FaultCode, Thrown};
use js_tree::Place;
use utf16_text::{Memory, Text};

/// Why a rule goes no further.
#[derive(Drop)]
pub enum Halt {
    /// Something is thrown, which an open part may take.
    Throw(Thrown),
    /// The run ends.
    Fault { code: FaultCode, place: Place },
    /// The run ends since a property or form that is left out is used; this is its name.
    LeftOut { name: Text, place: Place },
    /// Memory was refused.
    Memory,
}

impl From<Memory> for Halt {
    ghost use Rattle.std.specs.Prelude.{◌≡◌};
    ghost use Rattle.heap_steps.specs.declared.halt.Halt.TheVariants as halt;

    ghost from_gives = { λ _ h. h ≡ halt.Memory };

    fn from(_memory: Memory) -> Halt {
        Halt::Memory
    }
}

/// What a refusal of the heap comes to.
pub fn refused(answer: HeapAnswer, place: Place) -> Halt
    ensures { result ≡ refusal answer place }
{
    let code = match answer {
        HeapAnswer::StringTooLong => FaultCode::StringTooLong,
        HeapAnswer::TextSpent => FaultCode::TextSpent,
        HeapAnswer::ArrayTooLong => FaultCode::ArrayTooLong,
        HeapAnswer::HeapFull => FaultCode::HeapFull,
        HeapAnswer::BadLength => FaultCode::ArrayTooLong,
        HeapAnswer::Memory => return Halt::Memory,
    };
    Halt::Fault { code, place }
}
