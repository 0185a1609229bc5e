// What the groups have matched.
ghost use Rattle.std.specs.Prelude.{◌≡◌, [], None, OnOk, replicate, slice_get, slice_set};

use js_pattern::{GroupList, Span};
use std::alloc::Global;
use std::marker::Model;
use utf16_text::{List, Memory};

/// What each group has matched, by its number from 0, which contracts see as a list. A group that isn't there stays
/// unset.
#[derive(Drop)]
pub(crate) struct Groups {
    spans: Vec<Option<Span>>,
}

impl Model for Groups {
    ghost use Rattle.std.specs.Prelude.{List, Option};
    ghost use Rattle.js_pattern.specs.declared.span.Span.{Span};

    ghost Value = { List (Option Span) };

    ghost view = { λ groups. groups.spans.items };
}

impl Groups {
    /// No group. It takes no memory.
    pub(crate) fn new(alloc: Global) -> Groups
        ensures { result ≡ [] }
    {
        Groups {
            spans: Vec::new(alloc),
        }
    }

    /// So many groups, all of them unset.
    pub(crate) fn reset(&mut self, count: usize) -> Result<(), Memory>
        ensures { OnOk result (self.new ≡ replicate count None) }
    {
        self.spans.clear();
        self.spans.resize(count, None)?;
        Ok(())
    }

    /// What a group has matched. None where it isn't there.
    pub(crate) fn get(&self, number: u8) -> Option<Option<Span>>
        ensures { result ≡ slice_get self.now number }
    {
        self.spans.get(usize::from(number)).copied()
    }

    /// Sets a group, or unsets it.
    pub(crate) fn set(&mut self, number: u8, value: Option<Span>)
        ensures { self.new ≡ slice_set self.old number value }
    {
        let place = usize::from(number);
        if place < self.spans.len() {
            self.spans[place] = value;
        }
    }

    /// The list of them. It takes no memory.
    pub(crate) fn into_list(self) -> GroupList
        ensures { result ≡ self }
    {
        let Groups { spans } = self;
        List::from_vec(spans)
    }
}
