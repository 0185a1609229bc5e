// Stacks of anything.
ghost use Rattle.std.specs.Prelude.{◌≡◌, ◌∷◌, [], ◌↔◌, IsTrue, MatchOption, OnOk, drop};

use std::alloc::Global;
use std::marker::Model;
use utf16_text::Memory;

/// A stack, which contracts see as a list, the top first.
#[derive(Drop)]
pub(crate) struct Stack<T> {
    // the top stands at the end
    items: Vec<T>,
}

impl<T> Model for Stack<T> {
    ghost use Rattle.std.specs.Prelude.{List, reverse};
    ghost use Rattle.std.specs.Coded.{coded_list};

    ghost Value = { List T };

    ghost coded = { coded_list T.code };

    ghost view = { λ stack. reverse stack.items.items };
}

impl<T: Drop> Stack<T> {
    /// An empty stack. It takes no memory.
    pub(crate) fn new(alloc: Global) -> Stack<T>
        ensures { result ≡ [] }
    {
        Stack {
            items: Vec::new(alloc),
        }
    }

    /// Whether nothing is on the stack.
    pub(crate) fn is_empty(&self) -> bool
        ensures { IsTrue result ↔ (self.now ≡ []) }
    {
        self.items.is_empty()
    }

    /// The item on top. None exactly where there is none.
    pub(crate) fn top(&self) -> Option<&T>
        ensures { MatchOption result (self.now ≡ []) (λ item. self.now ≡ item.now ∷ drop 1 self.now) }
    {
        self.items.last()
    }

    /// Puts an item on top.
    pub(crate) fn push(&mut self, item: T) -> Result<(), Memory>
        ensures { OnOk result (self.new ≡ item ∷ self.old) }
    {
        self.items.push(item)?;
        Ok(())
    }

    /// Takes the item on top. None exactly where there is none.
    pub(crate) fn pop(&mut self) -> Option<T>
        ensures { MatchOption result ((self.old ≡ []) × (self.new ≡ [])) (λ item. self.old ≡ item ∷ self.new) }
    {
        self.items.pop()
    }

    /// Takes all items.
    pub(crate) fn clear(&mut self)
        ensures { self.new ≡ [] }
    {
        self.items.clear()
    }
}
