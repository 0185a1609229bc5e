// The host of a run.
ghost use Rattle.std.specs.Prelude.{◌≡◌, OnErr, OnOk};
ghost use Rattle.js_host.specs.Seen.{Seen, LooksUp, alerted, looked_up};

use pac_names::{Answer, LookupName};
use std::alloc::Global;
use utf16_text::{Memory, Text};

/// What a lookup of a name comes to.
#[derive(Clone, Copy, Debug, PartialEq, Eq)]
pub enum Looked {
    /// The host knows this answer.
    Known(Answer),
    /// The host doesn't know an answer.
    Missing,
    /// 32 names were asked before, and this is another.
    TooMany,
    /// There was no memory to write the name down.
    Memory,
}

/// What answers a run's lookups and keeps its alerts.
pub trait Host {
    /// What the host knows, the distinct names that it was asked, in order, and the alerts that it kept.
    ghost seen: { Self → Seen };

    /// Looks a name up. TooMany comes exactly where 32 names are recorded and this is another. Otherwise the name is
    /// recorded if it is new, and the answer is Known where the host knows it, and Missing exactly where it doesn't.
    /// After Memory the record is as before.
    fn lookup(&mut self, alloc: Global, name: &LookupName) -> Looked
        ensures { LooksUp (looked_up (seen self.old) name.now) (seen self.old) result (seen self.new) };

    /// Keeps the first 1,024 units of a text, unless 256 alerts are kept. After Memory the record is as before.
    fn alert(&mut self, alloc: Global, text: &Text) -> Result<(), Memory>
        ensures ok { OnOk result (seen self.new ≡ alerted (seen self.old) text.now) }
        ensures unchanged { OnErr result (seen self.new ≡ seen self.old) };
}
