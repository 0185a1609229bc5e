// The output of a command, before it is written.
ghost use Rattle.std.specs.Prelude.{◌++◌, ◌∷◌, []};
ghost use Rattle.pac_plan.specs.Follows.{Gives, IsUnlessMemory};
ghost use Rattle.pac_plan.specs.OutputView.{made};

use crate::Status;
use pac_ports::{Sink, put};
use std::alloc::Global;
use utf16_text::Memory;

/// A status with the text that is to be written.
#[derive(Drop)]
pub struct Output {
    pub status: Status,
    pub text: Vec<u8>,
}

/// A status with a line of three pieces.
pub fn line(
    alloc: Global,
    status: Status,
    first: &str,
    second: &str,
    third: &str,
) -> Result<Output, Memory>
    ensures { IsUnlessMemory (record { status = status; text = first.now ++ second.now ++ third.now ++ 10 ∷ [] }) (made result) }
{
    let mut text = Vec::new(alloc);
    text.extend_from_slice(first.as_bytes())?;
    text.extend_from_slice(second.as_bytes())?;
    text.extend_from_slice(third.as_bytes())?;
    text.push(b'\n')?;
    Ok(Output { status, text })
}

/// Writes the output, and gives its status. Nothing is written where memory ran out, and WriteFault comes where the sink
/// fails.
pub fn give<K: Sink>(out: &mut K, output: Result<Output, Memory>) -> Status
    ensures { Gives (made output) result (K.state out.old) (K.state out.new) }
{
    let Ok(output) = output else {
        return Status::Memory;
    };
    match put(out, &output.text) {
        Ok(()) => output.status,
        Err(_) => Status::WriteFault,
    }
}
