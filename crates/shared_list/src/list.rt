// The list.
ghost use Rattle.std.specs.Prelude.{◌≡◌, ◌<◌, ◌^◌, ◌++◌, ◌∷◌, [], IfOk, OnOk, OnErr, length, slice_get, slice_index_or, slice_set, option_copied};
ghost use Rattle.std.specs.Borrow.{LendsIfOk, sem};

use crate::copied::Copied;
use crate::parts::Parts;
use std::alloc::Global;
use std::marker::Model;
use std::rc::Rc;
use utf16_text::Memory;

/// Items in order, seen as a list. Those that it began with may be shared with its copies.
#[derive(Drop)]
pub struct SharedList<T> {
    parts: Parts<T>,
}

impl<T> Model for SharedList<T> {
    ghost use Rattle.std.specs.Prelude.{List};
    ghost use Rattle.std.specs.Coded.{coded_list};
    ghost use Rattle.shared_list.specs.Parts.{items_of};

    ghost Value = { List T };

    ghost coded = { coded_list T.code };

    ghost view = { λ l. items_of l.parts };
}

impl<T: Copied> SharedList<T> {
    ghost use Rattle.shared_list.specs.contracts.list.SharedList.{the_row};

    /// The list of these items, none of which is shared yet.
    pub fn from_vec(alloc: Global, own: Vec<T>) -> Result<SharedList<T>, Memory>
        ensures { IfOk result (λ list. list ≡ own.items) }
    {
        let parts = Parts {
            base: Rc::new(alloc, Vec::new(alloc))?,
            written: Vec::new(alloc),
            own,
        };
        Ok(SharedList { parts })
    }

    /// The number of items.
    pub fn len(&self) -> usize
        requires { length self.now < 2 ^ 64 }
        ensures { result ≡ length self.now }
    {
        self.parts.base.len() + self.parts.own.len()
    }

    /// The item at a place, counted from 0.
    pub fn get(&self, at: usize) -> Option<&T>
        ensures { option_copied result ≡ slice_get self.now at }
    {
        self.parts.get(at)
    }

    /// The item at a place, counted from 0, to be written. One that is shared is copied first.
    pub fn get_mut(&mut self, alloc: Global, at: usize) -> Result<&mut T, Memory>
        requires { at < length self.old }
        ensures* writes_back { sem 𝓛 (LendsIfOk (the_row T.row) T.row self.entry result (slice_set self.old at) self.old) }
        ensures value { IfOk result (λ item. item.now ≡ slice_index_or self.old at item.now) }
    {
        self.parts.unshare(alloc, at)?;
        Ok(self.parts.own_mut(at))
    }

    /// Puts an item at the end.
    pub fn push(&mut self, item: T) -> Result<(), Memory>
        ensures ok { OnOk result (self.new ≡ self.old ++ item ∷ []) }
        ensures unchanged { OnErr result (self.new ≡ self.old) }
    {
        self.parts.own.push(item)?;
        Ok(())
    }

    /// The same list. It shares what this one shares, and the others are copied.
    pub fn copy(&self, alloc: Global) -> Result<SharedList<T>, Memory>
        ensures { IfOk result (λ list. list ≡ self.now) }
    {
        let parts = self.parts.copy(alloc)?;
        Ok(SharedList { parts })
    }

    /// The same list, whose copies share all that it has now. One that shares some of it with others stays as it is.
    pub fn share(self, alloc: Global) -> Result<SharedList<T>, Memory>
        ensures { IfOk result (λ list. list ≡ self) }
    {
        let SharedList { parts } = self;
        Ok(SharedList {
            parts: parts.share(alloc)?,
        })
    }
}

/// Puts an item at the end of each list, or of neither.
pub fn push_both<T: Copied, U: Copied>(
    first: &mut SharedList<T>,
    second: &mut SharedList<U>,
    item: T,
    other: U,
) -> Result<(), Memory>
    ensures first { OnOk result (first.new ≡ first.old ++ item ∷ []) }
    ensures second { OnOk result (second.new ≡ second.old ++ other ∷ []) }
    ensures unchanged { OnErr result ((first.new ≡ first.old) × (second.new ≡ second.old)) }
{
    append_both(&mut first.parts.own, &mut second.parts.own, item, other)
}

fn append_both<T: Drop, U: Drop>(
    first: &mut Vec<T>,
    second: &mut Vec<U>,
    item: T,
    other: U,
) -> Result<(), Memory>
    ensures first { OnOk result (first.new.items ≡ first.old.items ++ item ∷ []) }
    ensures second { OnOk result (second.new.items ≡ second.old.items ++ other ∷ []) }
    ensures unchanged { OnErr result ((first.new.items ≡ first.old.items) × (second.new.items ≡ second.old.items)) }
{
    second.reserve(1)?;
    first.push(item)?;
    second.push(other)?;
    Ok(())
}
