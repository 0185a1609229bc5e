// A script as it is printed.
ghost use Rattle.library_calls.specs.Told.{Comes, Tells};
ghost use Rattle.library_calls.specs.Checking.{checked};

use crate::early::Early;
use crate::inputs::script_in;
use crate::told::{Status, Told};
use js_printer::print;
use std::alloc::Global;
use utf16_text::Memory;

/// Reads a script and prints it.
pub fn check(alloc: Global, script: &[u8]) -> Result<Told, Memory>
    ensures { Tells (checked script.now) result }
{
    match printed(alloc, script) {
        Ok(told) => Ok(told),
        Err(early) => early.told(),
    }
}

fn printed(alloc: Global, script: &[u8]) -> Result<Told, Early>
    ensures { Comes (checked script.now) result }
{
    let script = script_in(alloc, script)?;
    Ok(Told {
        status: Status::Done,
        bytes: print(alloc, &script)?,
    })
}
