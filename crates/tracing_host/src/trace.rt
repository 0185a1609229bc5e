// What a host writes down of a run.
ghost use Rattle.std.specs.Prelude.{◌≡◌};
ghost use Rattle.js_host.specs.Seen.{was_asked};

use crate::NameList;
use js_host::Looked;
use pac_names::{Answer, LookupName, MOST_NAMES};
use std::alloc::Global;
use utf16_text::TextList;

/// The distinct names that were asked, in the order of first asking, and the alerts that were kept.
#[derive(Drop)]
pub(crate) struct Trace {
    pub(crate) asked: NameList,
    pub(crate) alerts: TextList,
}

impl Trace {
    ghost use Rattle.std.specs.Prelude.{[]};
    ghost use Rattle.tracing_host.specs.Trace.{Tells};

    /// Nothing yet. It takes no memory.
    pub(crate) fn new(alloc: Global) -> Trace
        ensures { result ≡ record { asked = []; alerts = [] } }
    {
        Trace {
            asked: NameList::new(alloc),
            alerts: TextList::new(alloc),
        }
    }

    /// Looks up a name of which this is known, and writes it down if it is new.
    pub(crate) fn look_up(
        &mut self,
        alloc: Global,
        name: &LookupName,
        known: Option<Answer>,
    ) -> Looked
        ensures { Tells self.old name.now known result self.new }
    {
        if !is_among(self.asked.as_slice(), name) {
            if self.asked.len() >= MOST_NAMES {
                return Looked::TooMany;
            }
            if self.asked.push(alloc, name.copy()).is_err() {
                return Looked::Memory;
            }
        }
        match known {
            Some(answer) => Looked::Known(answer),
            None => Looked::Missing,
        }
    }
}

fn is_among(asked: &[LookupName], name: &LookupName) -> bool
    ensures { result ≡ was_asked asked.now name.now }
{
    asked.iter().any(|one| name == one)
}
