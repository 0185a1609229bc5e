// A host that knows a table's answers alone.
ghost use Rattle.std.specs.Prelude.{◌≡◌};
ghost use Rattle.js_host.specs.Answers.{partly};
ghost use Rattle.js_host.specs.Seen.{fresh};

use crate::NameList;
use crate::trace::Trace;
use answer_table::AnswerTable;
use js_host::{Host, Looked, keep_alert};
use pac_names::LookupName;
use std::alloc::Global;
use std::marker::Model;
use utf16_text::{Memory, Text, TextList};

/// A host that knows exactly the answers of a table. Contracts see it as what it has seen.
#[derive(Drop)]
pub struct TracingHost<'t> {
    table: &'t AnswerTable,
    trace: Trace,
}

impl<'t> Model for TracingHost<'t> {
    ghost use Rattle.js_host.specs.Answers.{partly};
    ghost use Rattle.js_host.specs.Seen.{Seen};
    ghost use Rattle.js_host.specs.Codes.{seen_code};

    ghost Value = { Seen };

    ghost coded = { seen_code };

    ghost view = { λ h. record { known = partly h.table.now; asked = h.trace.asked; alerts = h.trace.alerts } };
}

impl<'t> TracingHost<'t> {
    /// A host that was asked nothing yet. It takes no memory.
    pub fn new(alloc: Global, table: &'t AnswerTable) -> TracingHost<'t>
        ensures { result ≡ fresh (partly table.entry.now) }
    {
        TracingHost {
            table,
            trace: Trace::new(alloc),
        }
    }

    /// The distinct names that it was asked, in the order of first asking.
    pub fn asked(&self) -> &NameList
        ensures { result.now ≡ self.now.asked }
    {
        &self.trace.asked
    }

    /// The alerts that it kept, in order.
    pub fn alerts(&self) -> &TextList
        ensures { result.now ≡ self.now.alerts }
    {
        &self.trace.alerts
    }
}

impl<'t> Host for TracingHost<'t> {
    ghost seen = { λ h. h };

    fn lookup(&mut self, alloc: Global, name: &LookupName) -> Looked {
        let answer = self.table.get(name);
        self.trace.look_up(alloc, name, answer)
    }

    fn alert(&mut self, alloc: Global, text: &Text) -> Result<(), Memory> {
        keep_alert(alloc, &mut self.trace.alerts, text)
    }
}
