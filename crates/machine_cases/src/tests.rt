// The adapter over an outside that is interrupted.
use pac_machine::StandardOutput;
use pac_ports::put;
use std::cell::Cell;
use std::fmt::Display;
use std::io::{self, ErrorKind};

// An output whose next calls are interrupted, so many of them; then it counts the bytes that it takes.
#[derive(Drop)]
struct Interrupted {
    left: Cell<u32>,
    taken: Cell<usize>,
}

impl Print for Interrupted {
    fn print<D: Display + Drop>(&self, _value: D) -> io::Result<()> {
        Ok(())
    }

    fn println<D: Display + Drop>(&self, _value: D) -> io::Result<()> {
        Ok(())
    }

    fn write_all(&self, bytes: &[u8]) -> io::Result<()> {
        let left = self.left.get();
        if left > 0 {
            self.left.set(left - 1);
            return Err(io::Error::from(ErrorKind::Interrupted));
        }
        self.taken.set(self.taken.get().saturating_add(bytes.len()));
        Ok(())
    }
}

#[test]
fn an_interrupted_write_is_begun_again(rt: HostRuntime) {
    let outside = Interrupted {
        left: Cell::new(3),
        taken: Cell::new(0),
    };
    let mut out = StandardOutput::new(&outside);
    assert!(rt; put(&mut out, b"report").is_ok());
    assert!(rt; outside.left.get() == 0);
    assert!(rt; outside.taken.get() == 6);
}
