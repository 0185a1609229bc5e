// The machine's clock. It tells its last moment and how many it gave.
use pac_ports::Clock;
use std::time::{self, SystemTime, UNIX_EPOCH};

/// The clock of the machine, in seconds since 1970 in UTC.
#[derive(Drop)]
pub struct MachineClock<'a, R> {
    rt: &'a R,
    last: Option<i64>,
    calls: u64,
}

impl<'a, R> MachineClock<'a, R> {
    pub fn new(rt: &'a R) -> MachineClock<'a, R> {
        MachineClock {
            rt,
            last: None,
            calls: 0,
        }
    }
}

impl<R: time::Clock> Clock for MachineClock<'_, R> {
    ghost use Rattle.std.specs.Prelude.{Some};

    ghost told = { λ c. Some (record { last = c.last; calls = c.calls }) };

    fn now(&mut self) -> i64 {
        let moment = seconds(self.rt);
        self.last = Some(moment);
        self.calls = self.calls.saturating_add(1);
        moment
    }
}

// The seconds since 1970; 0 where the clock can't be read or stands before that.
fn seconds<R: time::Clock>(rt: &R) -> i64 {
    let now = SystemTime::now(rt).ok();
    match now.and_then(|now| now.duration_since(UNIX_EPOCH).ok()) {
        Some(since) => i64::try_from(since.as_secs()).unwrap_or(i64::MAX),
        None => 0,
    }
}
