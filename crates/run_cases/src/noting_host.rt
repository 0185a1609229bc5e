// The calls of its host that a run makes, one after another.
use crate::answers::tell_name;
use answer_table::AnswerTable;
use anyhow::{Context, Result, ensure};
use case_rows::written_text;
use js_host::{Host, Looked, MOST_ALERTS, kept_units};
use pac_names::{Answer, LookupName};
use std::alloc::Global;
use tracing_host::TracingHost;
use utf16_text::{Memory, Text};

/// A call of a host.
#[derive(Drop)]
enum Call {
    Lookup(LookupName),
    Alert(Text),
}

/// A host that writes down each of its calls; an alert as it is kept, and not at all where it isn't.
#[derive(Drop)]
pub(crate) struct NotingHost<'t> {
    host: TracingHost<'t>,
    calls: Vec<Call>,
}

impl<'t> NotingHost<'t> {
    pub(crate) fn new(alloc: Global, known: &'t AnswerTable) -> NotingHost<'t> {
        NotingHost {
            host: TracingHost::new(alloc, known),
            calls: Vec::new(alloc),
        }
    }

    /// The names that the host was asked, each once.
    pub(crate) fn asked(&self) -> &[LookupName] {
        self.host.asked().as_slice()
    }

    /// The calls, in their order.
    pub(crate) fn written(&self, alloc: Global) -> Result<String> {
        let mut all = String::new(alloc);
        for call in &self.calls {
            if !all.is_empty() {
                all.push_str(", ")?;
            }
            tell_call(alloc, call, &mut all)?;
        }
        Ok(all)
    }
}

impl<'t> Host for NotingHost<'t> {
    ghost seen = { λ noting. noting.host };

    fn lookup(&mut self, alloc: Global, name: &LookupName) -> Looked {
        match self.calls.push(Call::Lookup(name.copy())) {
            Ok(()) => self.host.lookup(alloc, name),
            Err(_) => Looked::Memory,
        }
    }

    fn alert(&mut self, alloc: Global, text: &Text) -> Result<(), Memory> {
        if self.host.alerts().as_slice().len() < MOST_ALERTS {
            self.calls.push(Call::Alert(kept_units(alloc, text)?))?;
        }
        self.host.alert(alloc, text)
    }
}

fn tell_call(alloc: Global, call: &Call, told: &mut String) -> Result<()> {
    match call {
        Call::Lookup(name) => {
            told.push_str("lookup ")?;
            tell_name(name, told)?;
        }
        Call::Alert(text) => {
            told.push_str("alert ")?;
            told.push_str(written_text(alloc, text)?.as_str())?;
        }
    }
    Ok(())
}

/// A table in which these names, parted by blanks, have no address.
pub(crate) fn known_without_address(alloc: Global, names: &str) -> Result<AnswerTable> {
    let mut table = AnswerTable::new(alloc);
    for name in names.split_whitespace() {
        let name = LookupName::from_bytes(name.as_bytes()).context("a lookup name")?;
        ensure!(table.get(&name).is_none(), "each name once");
        table.insert(alloc, name, Answer::NoAddress)?;
    }
    Ok(table)
}
