// A table of answers.
ghost use Rattle.std.specs.Prelude.{◌≡◌, None, OnErr, OnOk};
ghost use Rattle.std.specs.FinMap as map;

use pac_names::{Answer, LookupName};
use std::alloc::Global;
use std::collections::BTreeMap;
use std::marker::Model;
use utf16_text::Memory;

/// Answers by lookup name, seen as a finite map. A call takes steps that grow with the logarithm of the number of
/// names.
#[derive(Drop)]
pub struct AnswerTable {
    entries: BTreeMap<LookupName, Answer>,
}

impl Model for AnswerTable {
    ghost use Rattle.std.specs.FinMap as map;
    ghost use Rattle.js_host.specs.Answers.{AnswerMap};
    ghost use Rattle.js_host.specs.Codes.{answer_map_code};

    ghost Value = { AnswerMap };

    ghost coded = { answer_map_code };

    ghost view = { λ t. map.from_entries t.entries.entries };
}

impl AnswerTable {
    /// A table without answers. It takes no memory.
    pub fn new(alloc: Global) -> AnswerTable
        ensures { result ≡ map.empty }
    {
        AnswerTable {
            entries: BTreeMap::new(alloc),
        }
    }

    /// The answer for a name, where the table has one.
    pub fn get(&self, name: &LookupName) -> Option<Answer>
        ensures { result ≡ map.get self.now name.now }
    {
        self.entries.get(name).copied()
    }

    /// Adds the answer for a name that has none. The other answers stay.
    pub fn insert(&mut self, _alloc: Global, name: LookupName, answer: Answer) -> Result<(), Memory>
        requires { map.get self.old name ≡ None }
        ensures ok { OnOk result (self.new ≡ map.insert self.old name answer) }
        ensures unchanged { OnErr result (self.new ≡ self.old) }
    {
        self.entries.insert(name, answer)?;
        Ok(())
    }
}
