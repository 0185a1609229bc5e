// The room of a caller.
ghost use Rattle.std.specs.Prelude.{◌≡◌};
ghost use Rattle.library_calls.specs.Told as spec;
ghost use Rattle.library_calls.specs.Told.{Tells};
ghost use Rattle.pac_c.specs.Room.{Hands, if_short};

use library_calls::{Status, Told};
use utf16_text::Memory;

/// Writes what is told to the front of the room where it fits, says how many bytes it has, and answers the number of the
/// status.
pub(crate) fn give(told: Result<Told, Memory>, output: &mut [u8], whole: &mut usize) -> u32
    ensures { (t : spec.Told) → Tells t told → Hands t output.old (record { number = result; room = output.new; whole = whole.new }) }
{
    let Ok(told) = told else {
        *whole = 0;
        return Status::Memory.number();
    };
    *whole = told.bytes.len();
    if told.bytes.len() > output.len() {
        return if_short(told.status).number();
    }
    output[..told.bytes.len()].copy_from_slice(&told.bytes);
    told.status.number()
}

// The status where the room is short.
fn if_short(status: Status) -> Status
    ensures { result ≡ if_short status }
{
    match status {
        Status::Done | Status::NameWanted => Status::Short,
        other => other,
    }
}
