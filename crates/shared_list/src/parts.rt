// The parts of a list that shares its beginning.
ghost use Rattle.std.specs.Prelude.{◌≡◌, ◌<◌, ◌≤◌, List, Some, IfOk, OnOk, length, map, slice_get, option_copied};
ghost use Rattle.std.specs.Borrow.{Lends, sem};
ghost use Rattle.shared_list.specs.Slots.{written_in, written_of, merged};
ghost use Rattle.shared_list.specs.Parts.{items_of, IsOwn};

use crate::copied::Copied;
use crate::slot::Slot;
use std::alloc::Global;
use std::rc::Rc;
use utf16_text::Memory;

/// The items that copies share, what was written in their places, and the items behind them. Places that are not there
/// have their shared item.
#[derive(Drop)]
pub(crate) struct Parts<T> {
    pub(crate) base: Rc<Vec<T>>,
    pub(crate) written: Vec<Slot<T>>,
    pub(crate) own: Vec<T>,
}

impl<T> Parts<T> {
    ghost use Rattle.shared_list.specs.contracts.parts.Parts.{the_row};
    ghost use Rattle.shared_list.specs.Parts.{with_own};

    pub(crate) fn get(&self, at: usize) -> Option<&T>
        ensures { option_copied result ≡ slice_get (items_of self.now) at }
    {
        let shared = self.base.len();
        if at >= shared {
            return self.own.get(at - shared);
        }
        match written_at(&self.written, at) {
            Some(item) => Some(item),
            None => self.base.get(at),
        }
    }

    pub(crate) fn own_mut(&mut self, at: usize) -> &mut T
        requires { IsOwn self.old at }
        ensures* lends { sem 𝓛 (Lends (the_row T.row) T.row self.entry result (with_own self.old at)) }
        ensures value { slice_get (items_of self.old) at ≡ Some result.now }
    {
        let shared = self.base.len();
        if at >= shared {
            return &mut self.own[at - shared];
        }
        let slot = &mut self.written[at];
        slot.value_mut()
    }
}

impl<T: Copied> Parts<T> {
    /// Copies the item at a place, where it is shared.
    pub(crate) fn unshare(&mut self, alloc: Global, at: usize) -> Result<(), Memory>
        requires { at < length (items_of self.old) }
        ensures same { items_of self.new ≡ items_of self.old }
        ensures own { OnOk result (IsOwn self.new at) }
    {
        if at >= self.base.len() || written_at(&self.written, at).is_some() {
            return Ok(());
        }
        let item = Box::new(alloc, self.base[at].copied(alloc)?)?;
        fill(&mut self.written, at + 1)?;
        self.written[at] = Slot::Written(item);
        Ok(())
    }

    /// The same parts, all of which copies share. Where some were shared before, the others stay as they are.
    pub(crate) fn share(self, alloc: Global) -> Result<Parts<T>, Memory>
        ensures { IfOk result (λ parts. items_of parts ≡ items_of self) }
    {
        if self.base.len() > 0 {
            return Ok(self);
        }
        let Parts { own, .. } = self;
        Ok(Parts {
            base: Rc::new(alloc, own)?,
            written: Vec::new(alloc),
            own: Vec::new(alloc),
        })
    }

    /// The same parts, which share their beginning with these.
    pub(crate) fn copy(&self, alloc: Global) -> Result<Parts<T>, Memory>
        ensures { IfOk result (λ copy. items_of copy ≡ items_of self.now) }
    {
        Ok(Parts {
            base: self.base.clone()?,
            written: copied_slots(alloc, &self.written)?,
            own: copied_items(alloc, &self.own)?,
        })
    }
}

fn written_at<T>(written: &[Slot<T>], at: usize) -> Option<&T>
    ensures { option_copied result ≡ written_of (slice_get written.now at) }
{
    match written.get(at) {
        None => None,
        Some(slot) => slot.value(),
    }
}

/// Puts places of shared items behind the others, until there are so many.
fn fill<T: Drop>(written: &mut Vec<Slot<T>>, count: usize) -> Result<(), Memory>
    ensures enough { OnOk result (count ≤ length written.new.items) }
    ensures same { (xs : List T) → merged xs written.new.items ≡ merged xs written.old.items }
{
    for _place in written.len()..count {
        written.push(Slot::Shared)?;
    }
    Ok(())
}

fn copied_items<T: Copied>(alloc: Global, items: &[T]) -> Result<Vec<T>, Memory>
    ensures { IfOk result (λ copies. copies.items ≡ items.now) }
{
    let mut copies = Vec::with_capacity(alloc, items.len())?;
    for item in items {
        copies.push(item.copied(alloc)?)?;
    }
    Ok(copies)
}

fn copied_slots<T: Copied>(alloc: Global, slots: &[Slot<T>]) -> Result<Vec<Slot<T>>, Memory>
    ensures { IfOk result (λ copies. map written_in copies.items ≡ map written_in slots.now) }
{
    let mut copies = Vec::with_capacity(alloc, slots.len())?;
    for slot in slots {
        copies.push(slot.copied(alloc)?)?;
    }
    Ok(copies)
}
