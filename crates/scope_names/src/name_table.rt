// Names with their slots.
ghost use Rattle.std.specs.Prelude.{◌≡◌, IfOk, OnOk, length};
ghost use Rattle.std.specs.Ordering.{nat_cmp};
ghost use Rattle.std.specs.Cmp.Lexicographic.{slice_cmp};
ghost use Rattle.std.specs.BTreeMap.{get};
ghost use Rattle.js_binding.specs.Names.{with_name, each_once};
ghost use Rattle.js_binding.specs.Scopes.{place_of};
ghost use Rattle.scope_names.specs.Index.{IsIndex, IsPut};

use js_tree::NameList;
use std::alloc::Global;
use std::collections::BTreeMap;
use std::marker::Model;
use utf16_text::{Memory, Text};

/// The names of a scope in the order of their slots, each once.
#[derive(Drop)]
pub struct NameTable {
    names: NameList,
    slots: BTreeMap<Text, u32>,
}

impl Model for NameTable {
    ghost use Rattle.std.specs.Prelude.{List, ℕ};
    ghost use Rattle.std.specs.Ordering.{nat_cmp};
    ghost use Rattle.std.specs.Cmp.Lexicographic.{slice_cmp};
    ghost use Rattle.std.specs.BTreeMap.{get};
    ghost use Rattle.scope_names.specs.Index.{IsIndex};

    ghost Value = { List (List ℕ) };

    ghost view = { λ t. t.names };

    ghost invariant = { λ t. IsIndex (get (slice_cmp nat_cmp) t.slots) t.names };
}

impl NameTable {
    /// These names, each once, where it stands first.
    pub fn new(alloc: Global, all: &[Text]) -> Result<NameTable, Memory>
        ensures { IfOk result (λ t. t ≡ each_once all.now) }
    {
        let mut names = NameList::new(alloc);
        let mut slots = BTreeMap::new(alloc);
        for name in all {
            add(alloc, name, &mut names, &mut slots)?;
        }
        Ok(NameTable { names, slots })
    }

    /// The slot of a name, if it is there.
    pub fn slot(&self, name: &Text) -> Option<u32>
        ensures { result ≡ place_of name.now self.now }
    {
        self.slots.get(name).copied()
    }

    /// The names in order.
    pub fn into_names(self) -> NameList
        ensures { result ≡ self }
    {
        let NameTable { names, slots: _ } = self;
        names
    }
}

/// Puts a name at the end, unless it is there.
fn add(
    alloc: Global,
    name: &Text,
    names: &mut NameList,
    slots: &mut BTreeMap<Text, u32>,
) -> Result<(), Memory>
    requires { IsIndex (get (slice_cmp nat_cmp) slots.old) names.old }
    ensures names { OnOk result (names.new ≡ with_name names.old name.now) }
    ensures index { OnOk result (IsIndex (get (slice_cmp nat_cmp) slots.new) names.new) }
{
    if slots.contains_key(name) {
        return Ok(());
    }
    let slot = next_slot(names)?;
    let key = name.copy(alloc)?;
    put(slots, key, slot)?;
    let held = name.copy(alloc)?;
    names.push(alloc, held)?;
    Ok(())
}

/// The slot of the next name.
fn next_slot(names: &NameList) -> Result<u32, Memory>
    ensures { IfOk result (λ slot. slot ≡ length names.now) }
{
    match u32::try_from(names.len()) {
        Ok(slot) => Ok(slot),
        Err(_) => Err(Memory),
    }
}

fn put(slots: &mut BTreeMap<Text, u32>, name: Text, slot: u32) -> Result<(), Memory>
    ensures { OnOk result (IsPut (get (slice_cmp nat_cmp) slots.old) name slot (get (slice_cmp nat_cmp) slots.new)) }
{
    slots.insert(name, slot)?;
    Ok(())
}
