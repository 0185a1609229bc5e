// Standard output. It tells nothing.
use pac_ports::{Failed, Sink};
use std::io::{self, Write};

/// The standard output of the program.
#[derive(Drop)]
pub struct StandardOutput<'a, R> {
    rt: &'a R,
    faults: u64,
}

impl<'a, R> StandardOutput<'a, R> {
    pub fn new(rt: &'a R) -> StandardOutput<'a, R> {
        StandardOutput { rt, faults: 0 }
    }
}

impl<R: Print> Sink for StandardOutput<'_, R> {
    ghost use Rattle.std.specs.Prelude.{None};

    ghost state = { λ s. record { told = None; faults = s.faults; sure = None } };

    fn write(&mut self, bytes: &[u8]) -> Result<usize, Failed> {
        match write_some(self.rt, bytes) {
            Ok(taken) if taken <= bytes.len() && (taken > 0 || bytes.is_empty()) => Ok(taken),
            _ => {
                self.faults = self.faults.saturating_add(1);
                Err(Failed)
            }
        }
    }
}

// One write, begun again where a signal interrupted it, which takes nothing. No system interrupts 2^64 - 1 times.
fn write_some<R: Print>(rt: &R, bytes: &[u8]) -> io::Result<usize> {
    for _turn in 0..u64::MAX {
        match io::writer(rt).write(bytes) {
            Err(error) if error.kind() == io::ErrorKind::Interrupted => {}
            answer => return answer,
        }
    }
    Err(io::Error::from(io::ErrorKind::Interrupted))
}
