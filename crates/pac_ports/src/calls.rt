// The calls of an object in memory.
ghost use Rattle.std.specs.Prelude.{◌≡◌, OnOk, OnErr};

use std::alloc::Global;
use std::marker::Model;
use utf16_text::Memory;

/// How many calls there were, and the numbers, from 1, of those that are to fail.
#[derive(Drop)]
pub(crate) struct Calls {
    count: u64,
    fail_at: Vec<u64>,
}

impl Model for Calls {
    ghost use Rattle.pac_ports.specs.Calls.{CallsState};

    ghost Value = { CallsState };

    ghost view = { λ c. record { count = c.count; fail_at = c.fail_at.items } };
}

impl Calls {
    ghost use Rattle.pac_ports.specs.Calls.{no_calls, with_failing_call, with_call, is_listed};

    /// No calls. It takes no memory.
    pub(crate) fn new(alloc: Global) -> Calls
        ensures { result ≡ no_calls }
    {
        Calls {
            count: 0,
            fail_at: Vec::new(alloc),
        }
    }

    /// Lets the call of that number fail.
    pub(crate) fn fail_at(&mut self, call: u64) -> Result<(), Memory>
        ensures ok { OnOk result (self.new ≡ with_failing_call call self.old) }
        ensures unchanged { OnErr result (self.new ≡ self.old) }
    {
        self.fail_at.push(call)?;
        Ok(())
    }

    /// Counts a call and answers whether it is to fail.
    pub(crate) fn count(&mut self) -> bool
        ensures fails { result ≡ is_listed self.old }
        ensures counted { self.new ≡ with_call self.old }
    {
        self.count = self.count.saturating_add(1);
        self.fail_at.contains(&self.count)
    }
}
