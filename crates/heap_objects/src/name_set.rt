// Names gathered in order, each once.
ghost use Rattle.std.specs.Prelude.{◌≡◌, [], OnOk, OnErr, true, false};
ghost use Rattle.std.specs.Ordering.{nat_cmp};
ghost use Rattle.std.specs.Cmp.Lexicographic.{slice_cmp};
ghost use Rattle.std.specs.BTreeSet.{contains};
ghost use Rattle.heap_objects.specs.Keys.{with_name, with_names, IsMarked};

use std::alloc::Global;
use std::collections::BTreeSet;
use std::marker::Model;
use utf16_text::{Memory, Text, TextList};

/// A list of names, each once, in the order in which they were put in.
#[derive(Drop)]
pub struct NameSet {
    names: TextList,
    seen: BTreeSet<Text>,
}

impl Model for NameSet {
    ghost use Rattle.std.specs.Prelude.{List, ℕ};
    ghost use Rattle.heap_objects.specs.Keys.{HasSeen};
    ghost use Rattle.std.specs.Ordering.{nat_cmp};
    ghost use Rattle.std.specs.Cmp.Lexicographic.{slice_cmp};
    ghost use Rattle.std.specs.BTreeSet.{contains};

    ghost Value = { List (List ℕ) };

    ghost view = { λ s. s.names };

    ghost invariant = { λ s. HasSeen (contains (slice_cmp nat_cmp) s.seen) s.names };
}

impl NameSet {
    /// No names.
    pub fn new(alloc: Global) -> NameSet
        ensures { result ≡ [] }
    {
        NameSet {
            names: TextList::new(alloc),
            seen: BTreeSet::new(alloc),
        }
    }

    /// Puts a name at the end, unless it is there.
    pub fn add(&mut self, alloc: Global, name: &Text) -> Result<(), Memory>
        ensures ok { OnOk result (self.new ≡ with_name self.old name.now) }
        ensures unchanged { OnErr result (self.new ≡ self.old) }
    {
        if self.seen.contains(name) {
            return Ok(());
        }
        let held = name.copy(alloc)?;
        mark(&mut self.seen, name.copy(alloc)?)?;
        match self.names.push(alloc, held) {
            Ok(()) => Ok(()),
            Err(memory) => {
                unmark(&mut self.seen, name);
                Err(memory)
            }
        }
    }

    /// Puts in those names that are not there yet.
    pub fn add_all(&mut self, alloc: Global, names: &TextList) -> Result<(), Memory>
        ensures { OnOk result (self.new ≡ with_names self.old names.now) }
    {
        for name in names.as_slice() {
            self.add(alloc, name)?;
        }
        Ok(())
    }

    /// The names as a list.
    pub fn into_list(self) -> TextList
        ensures { result ≡ self }
    {
        let NameSet { names, seen: _ } = self;
        names
    }
}

fn mark(seen: &mut BTreeSet<Text>, name: Text) -> Result<(), Memory>
    ensures ok { OnOk result (IsMarked (contains (slice_cmp nat_cmp) seen.old) name true (contains (slice_cmp nat_cmp) seen.new)) }
    ensures unchanged { OnErr result (seen.new.keys ≡ seen.old.keys) }
{
    let _new = seen.insert(name)?;
    Ok(())
}

fn unmark(seen: &mut BTreeSet<Text>, name: &Text)
    ensures { IsMarked (contains (slice_cmp nat_cmp) seen.old) name.now false (contains (slice_cmp nat_cmp) seen.new) }
{
    let _found = seen.remove(name);
}
