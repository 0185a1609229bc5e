//! The program `pac`: makes the real outside, does what the words ask for and exits with the status.
//!
//! All that matters is `pac` of pac_command. The adapters to the machine are those of pac_machine and pac_net. They are
//! the trusted edge: that they do what they say is the machine's matter.
#![tactic(auto)]

ghost use Rattle.std.specs.Prelude.{◌≡◌, ◌<◌};
ghost use Rattle.std.specs.Process.{exit_status};
ghost use Rattle.pac_plan.specs.Exit.{exit_number};

use pac_command::{Status, pac};
use pac_machine::{DiskFiles, MachineClock, StandardOutput, words_of};
use pac_net::{RandomDice, UdpLink};
use std::marker::Brand;
use std::net::Net;
use std::process::ExitCode;
use std::random::RandomSource;
use std::sync::ledger::{Blank, Ledger};
use std::time::Clock;
use std::{fs, io};
use step_counter::Steps;

/// A device that is read as nothing, and can't be written where it was opened to be read.
const NOTHING: &str = "/dev/null";

fn main(rt: HostRuntime) -> ExitCode {
    // Where the program is started without a standard output the socket would take its number, and what is to be
    // written would go to the server. These two take the numbers of standard input and output where they are free.
    let _held = (fs::open(&rt, NOTHING), fs::open(&rt, NOTHING));
    let status = match words_of(&rt) {
        Ok(words) => called::<Brand, HostRuntime>(&rt, &words, Blank::new(1)),
        Err(error) if error.kind() == io::ErrorKind::OutOfMemory => Status::Memory,
        // A word that isn't UTF-8 is read by no command, and neither are no words at all.
        Err(_) => called::<Brand, HostRuntime>(&rt, &Vec::new(rt.alloc()), Blank::new(1)),
    };
    exit_code(status)
}

// The exit with the number of a status.
fn exit_code(status: Status) -> ExitCode
    ensures { exit_status result ≡ exit_number status }
{
    ExitCode::from(status.number())
}

// The top call over the real outside, with a counter of a new ledger.
fn called<L: Ledger, R: std::rt::Files + Print + AllocGlobal + Net + Clock + RandomSource + Drop>(
    rt: &R,
    words: &Vec<String>,
    blank: Blank,
) -> Status
    requires name { blank.name ≡ L.name }
    requires parts { blank.parts ≡ L.parts }
    requires some { 0 < blank.parts }
{
    let mut files = DiskFiles::new(rt);
    let mut out = StandardOutput::new(rt);
    let mut link = UdpLink::new(rt);
    let mut clock = MachineClock::new(rt);
    let mut dice = RandomDice::new(rt);
    let mut runs = Steps::<L>::new(blank);
    pac(
        rt.alloc(),
        words,
        &mut files,
        &mut out,
        &mut link,
        &mut clock,
        &mut dice,
        &mut runs,
    )
}
