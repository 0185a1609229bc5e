// A host that knows every name.
ghost use Rattle.std.specs.Prelude.{◌≡◌};
ghost use Rattle.js_host.specs.Answers.{wholly};
ghost use Rattle.js_host.specs.Seen.{fresh};

use crate::NameList;
use crate::trace::Trace;
use answer_table::AnswerTable;
use js_host::{Host, Looked, keep_alert};
use pac_names::{Answer, LookupName};
use std::alloc::Global;
use std::marker::Model;
use utf16_text::{Memory, Text, TextList};

/// A host that knows every name: the answers of a map, and that no other name has an address. It never answers Missing.
/// Contracts see it as what it has seen.
#[derive(Drop)]
pub struct MapHost<'m> {
    map: &'m AnswerTable,
    trace: Trace,
}

impl<'m> Model for MapHost<'m> {
    ghost use Rattle.js_host.specs.Answers.{wholly};
    ghost use Rattle.js_host.specs.Seen.{Seen};
    ghost use Rattle.js_host.specs.Codes.{seen_code};

    ghost Value = { Seen };

    ghost coded = { seen_code };

    ghost view = { λ h. record { known = wholly h.map.now; asked = h.trace.asked; alerts = h.trace.alerts } };
}

impl<'m> MapHost<'m> {
    /// A host that was asked nothing yet. It takes no memory.
    pub fn new(alloc: Global, map: &'m AnswerTable) -> MapHost<'m>
        ensures { result ≡ fresh (wholly map.entry.now) }
    {
        MapHost {
            map,
            trace: Trace::new(alloc),
        }
    }

    /// The distinct names that it was asked, in the order of first asking.
    pub fn asked(&self) -> &NameList
        ensures { result.now ≡ self.now.asked }
    {
        &self.trace.asked
    }

    /// The alerts that it kept, in order.
    pub fn alerts(&self) -> &TextList
        ensures { result.now ≡ self.now.alerts }
    {
        &self.trace.alerts
    }
}

impl<'m> Host for MapHost<'m> {
    ghost seen = { λ h. h };

    fn lookup(&mut self, alloc: Global, name: &LookupName) -> Looked {
        let answer = self.map.get(name).unwrap_or(Answer::NoAddress);
        self.trace.look_up(alloc, name, Some(answer))
    }

    fn alert(&mut self, alloc: Global, text: &Text) -> Result<(), Memory> {
        keep_alert(alloc, &mut self.trace.alerts, text)
    }
}
