// What was written in the place of a shared item.
ghost use Rattle.std.specs.Prelude.{◌≡◌, Some, IfOk, IsSome, option_copied};
ghost use Rattle.std.specs.Borrow.{Lends, sem};
ghost use Rattle.shared_list.specs.Slots.{written_in};

use crate::copied::Copied;
use std::alloc::Global;
use utf16_text::Memory;

/// The place of a shared item: the item itself, or what was written there.
#[derive(Drop)]
pub(crate) enum Slot<T> {
    Shared,
    Written(Box<T>),
}

impl<T> Slot<T> {
    ghost use Rattle.shared_list.specs.contracts.slot.Slot.{the_row};
    ghost use Rattle.shared_list.specs.Slots.{slot_with};

    pub(crate) fn value(&self) -> Option<&T>
        ensures { option_copied result ≡ written_in self.now }
    {
        match self {
            Slot::Shared => None,
            Slot::Written(item) => Some(&**item),
        }
    }

    pub(crate) fn value_mut(&mut self) -> &mut T
        requires { IsSome (written_in self.old) }
        ensures* lends { sem 𝓛 (Lends (the_row T.row) T.row self.entry result (slot_with self.old)) }
        ensures value { written_in self.old ≡ Some result.now }
    {
        match self {
            Slot::Written(item) => &mut **item,
            Slot::Shared => unreachable!(),
        }
    }
}

impl<T: Copied> Slot<T> {
    pub(crate) fn copied(&self, alloc: Global) -> Result<Slot<T>, Memory>
        ensures { IfOk result (λ copy. written_in copy ≡ written_in self.now) }
    {
        match self {
            Slot::Shared => Ok(Slot::Shared),
            Slot::Written(item) => Ok(Slot::Written(Box::new(alloc, item.copied(alloc)?)?)),
        }
    }
}
