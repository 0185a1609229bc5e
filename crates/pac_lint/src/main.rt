//! The program `pac-lint`: makes the real outside, lists what the words ask for and exits with the status.
//!
//! All that matters is `lint` of src/command.rt. The adapters to the machine are those of pac_machine, the trusted edge.
#![tactic(auto)]

ghost use Rattle.std.specs.Prelude.{◌≡◌};
ghost use Rattle.std.specs.Process.{exit_status};
ghost use Rattle.pac_plan.specs.Exit.{exit_number};

mod command;

use crate::command::lint;
use pac_machine::{DiskFiles, StandardOutput, words_of};
use pac_plan::Status;
use std::io;
use std::process::ExitCode;

fn main(rt: HostRuntime) -> ExitCode {
    let status = match words_of(&rt) {
        Ok(words) => called(&rt, &words),
        Err(error) if error.kind() == io::ErrorKind::OutOfMemory => Status::Memory,
        // A word that isn't UTF-8 is read as no words at all.
        Err(_) => called(&rt, &Vec::new(rt.alloc())),
    };
    exit_code(status)
}

// The exit with the number of a status.
fn exit_code(status: Status) -> ExitCode
    ensures { exit_status result ≡ exit_number status }
{
    ExitCode::from(status.number())
}

// The top call over the real outside.
fn called<R: std::rt::Files + Print + AllocGlobal + Drop>(rt: &R, words: &Vec<String>) -> Status {
    let mut files = DiskFiles::new(rt);
    let mut out = StandardOutput::new(rt);
    lint(rt.alloc(), words, &mut files, &mut out)
}
