// Who waits for which name.
ghost use Rattle.std.specs.Prelude.{◌≡◌, ℕ, ◌&&◌, ◌||◌, IfOk, OnOk, false, nat_eq, true, if◌then◌else◌};
ghost use Rattle.std.specs.List.Sorted.{IsStrictlySortedBy};
ghost use Rattle.std.specs.Ordering.{nat_cmp};
ghost use Rattle.pac_names.specs.Names.{Name};
ghost use Rattle.pac_names.specs.Comparing.{same_name};
ghost use Rattle.session_core.specs.Sessions.{waits_for};
ghost use Rattle.session_core.specs.Waiting.{AreFilled, has, waits_in};

use crate::Progress;
use pac_names::LookupName;
use std::alloc::Global;
use std::collections::{BTreeMap, BTreeSet};
use utf16_text::Memory;

/// For each name that is waited for, the places of the sessions that wait for it.
#[derive(Drop)]
pub(crate) struct Waiting {
    places: BTreeMap<LookupName, BTreeSet<usize>>,
}

impl Waiting {
    /// Nobody waits. It takes no memory.
    pub(crate) fn new(alloc: Global) -> Waiting
        ensures none { (name : Name) (place : ℕ) → waits_in result name place ≡ false }
        ensures filled { AreFilled result }
    {
        Waiting {
            places: BTreeMap::new(alloc),
        }
    }

    /// The session at a place waits for the name.
    pub(crate) fn add(
        &mut self,
        alloc: Global,
        name: LookupName,
        place: usize,
    ) -> Result<(), Memory>
        ensures added { OnOk result ((other : Name) (at : ℕ) → waits_in self.new other at ≡ ((same_name name other && nat_eq place at) || waits_in self.old other at)) }
        ensures filled { OnOk result (AreFilled self.old → AreFilled self.new) }
    {
        if let Some(places) = self.places.get_mut(&name) {
            places.insert(place)?;
            return Ok(());
        }
        let mut places = BTreeSet::new(alloc);
        places.insert(place)?;
        self.places.insert(name, places)?;
        Ok(())
    }

    /// Nobody waits for the name any more. The places of those who did are given, in order.
    pub(crate) fn take(&mut self, alloc: Global, name: &LookupName) -> Result<Vec<usize>, Memory>
        ensures taken { IfOk result (λ places. (at : ℕ) → has places.items at ≡ waits_in self.old name.now at) }
        ensures ascending { IfOk result (λ places. IsStrictlySortedBy nat_cmp places.items) }
        ensures others { (other : Name) (at : ℕ) → waits_in self.new other at ≡ (if same_name name.now other then false else waits_in self.old other at) }
        ensures filled { AreFilled self.old → AreFilled self.new }
    {
        match self.places.remove(name) {
            Some(places) => list_places(alloc, places),
            None => Ok(Vec::new(alloc)),
        }
    }

    /// Whether nobody waits.
    pub(crate) fn is_empty(&self) -> bool
        ensures none { result ≡ true → (name : Name) (place : ℕ) → waits_in self.now name place ≡ false }
        ensures some { result ≡ false → AreFilled self.now → (name : Name) × (place : ℕ) × (waits_in self.now name place ≡ true) }
    {
        self.places.is_empty()
    }
}

/// Adds the session at a place, if it waits.
pub(crate) fn note<O>(
    alloc: Global,
    waiting: &mut Waiting,
    progress: &Progress<O>,
    place: usize,
) -> Result<(), Memory>
    ensures noted { OnOk result ((name : Name) (at : ℕ) → waits_in waiting.new name at ≡ ((waits_for name progress.now && nat_eq place at) || waits_in waiting.old name at)) }
    ensures filled { OnOk result (AreFilled waiting.old → AreFilled waiting.new) }
{
    match progress {
        Progress::Waiting(name) => waiting.add(alloc, name.copy(), place),
        Progress::Finished(_) => Ok(()),
        Progress::Unanswered(_) => Ok(()),
    }
}

// Places in order, as a list.
fn list_places(alloc: Global, places: BTreeSet<usize>) -> Result<Vec<usize>, Memory>
    ensures listed { IfOk result (λ list. list.items ≡ places.keys) }
    ensures ascending { IfOk result (λ list. IsStrictlySortedBy nat_cmp list.items) }
{
    let mut list = Vec::new(alloc);
    for place in places {
        list.push(place)?;
    }
    Ok(list)
}
