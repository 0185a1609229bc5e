// Properties under array indexes.
ghost use Rattle.std.specs.Prelude.{
  ◌≡◌,
  ◌-◌,
  ◌++◌,
  ◌∷◌,
  [],
  true,
  None,
  Some,
  length,
  filter,
  slice_get,
  IfOk,
  IfSome,
  IfNone,
  OnOk,
  OnErr,
};
ghost use Rattle.std.specs.Fmt.{decimal};
ghost use Rattle.std.specs.Option.{option_copied};
ghost use Rattle.heap_elements.specs.Names.{array_index as index_of};
ghost use Rattle.heap_elements.specs.Properties.{
  property_at,
  with_property,
  without_property,
  listed_names_of,
};
ghost use Rattle.heap_elements.specs.Places.{NamesDiffer};
ghost use Rattle.heap_elements.specs.Elements.{
  elements_of,
  AreRising,
  has_index,
  is_below,
  is_past_last,
  takes,
  taken_index,
  HasIndex,
  is_filled,
  is_gap,
  is_listed,
};

use crate::names::{array_index, index_name};
use heap_values::Property;
use std::alloc::Global;
use std::marker::Model;
use utf16_text::{Memory, Text, TextList};

/// An index with the property under it, or the gap that a deleted one left.
type Slot = (u32, Option<Property>);

/// Properties whose names are array indexes, each created behind those of lower indexes, seen as the slots in which
/// they stand.
///
/// As long as no index was left out, each stands at the place of its number, and is found there in a step; else it is
/// searched by halving. A deletion leaves a gap. Gaps at the end go at once. The others are closed after as many
/// deletions as half of the slots, so that no walk meets more gaps than properties.
#[derive(Drop)]
pub struct Elements {
    slots: Vec<Slot>,
    /// The deletions since the gaps were closed.
    deletions: usize,
}

impl Model for Elements {
    ghost use Rattle.heap_elements.specs.Elements.{Slots, AreRising};

    ghost Value = { Slots };

    ghost view = { λ e. e.slots.items };

    ghost invariant = { λ e. AreRising 0 e.slots.items };
}

impl Elements {
    /// No properties.
    pub fn new(alloc: Global) -> Elements
        ensures { result ≡ [] }
    {
        Elements {
            slots: Vec::new(alloc),
            deletions: 0,
        }
    }

    /// The same properties. Their texts share their units with the copy.
    pub fn copy(&self, alloc: Global) -> Result<Elements, Memory>
        ensures { IfOk result (λ elements. elements ≡ self.now) }
    {
        let slots = copied_slots(alloc, &self.slots)?;
        Ok(Elements {
            slots,
            deletions: self.deletions,
        })
    }

    /// The property under an index.
    pub fn get(&self, index: u32) -> Option<&Property>
        ensures { option_copied result ≡ property_at (elements_of self.now) (decimal index) }
    {
        match self.place_of(index) {
            None => None,
            Some(at) => self.slots[at].1.as_ref(),
        }
    }

    /// The property of this name.
    pub fn find(&self, name: &Text) -> Option<&Property>
        ensures { option_copied result ≡ property_at (elements_of self.now) name.now }
    {
        match self.index_of(name) {
            None => None,
            Some(index) => self.get(index),
        }
    }

    /// Whether the index is past that of the last property. Nothing stands under it.
    pub fn is_past_last(&self, index: u32) -> bool
        ensures next { result ≡ is_past_last self.now index }
        ensures missing { result ≡ true → property_at (elements_of self.now) (decimal index) ≡ None }
    {
        ends_below(&self.slots, index) && index < u32::MAX
    }

    /// Whether a property under this index stands in its slot or goes behind the last.
    pub fn takes(&self, index: u32) -> bool
        ensures { result ≡ takes self.now index }
    {
        self.get(index).is_some() || self.is_past_last(index)
    }

    /// The index that a name is, where a property under it stands in its slot or goes behind the last.
    pub fn taken_index(&self, name: &Text) -> Option<u32>
        ensures taken { result ≡ taken_index self.now (index_of name.now) }
        ensures name { IfSome result (λ index. name.now ≡ decimal index) }
        ensures takes { IfSome result (λ index. takes self.now index ≡ true) }
    {
        let index = array_index(name)?;
        if self.takes(index) { Some(index) } else { None }
    }

    /// Gives the index the property: in its slot where it is there, else behind the last.
    pub fn set(&mut self, index: u32, property: Property) -> Result<(), Memory>
        requires { takes self.old index ≡ true }
        ensures ok { OnOk result (elements_of self.new ≡ with_property (elements_of self.old) (decimal index) property) }
        ensures unchanged { OnErr result (self.new ≡ self.old) }
    {
        match self.place_of(index) {
            None => {
                append(&mut self.slots, index, property)?;
                Ok(())
            }
            Some(at) => {
                self.slots[at] = (index, Some(property));
                Ok(())
            }
        }
    }

    /// Takes the property under this index away, where there is one. The others keep their order.
    pub fn remove(&mut self, index: u32)
        ensures { elements_of self.new ≡ without_property (elements_of self.old) (decimal index) }
    {
        match self.place_of(index) {
            None => {}
            Some(at) => {
                self.slots[at] = (index, None);
                self.deletions = self.deletions.saturating_add(1);
                self.close_gaps();
            }
        }
    }

    /// Takes the property of this name away, where there is one. The others keep their order.
    pub fn remove_name(&mut self, name: &Text)
        ensures { elements_of self.new ≡ without_property (elements_of self.old) name.now }
    {
        match self.index_of(name) {
            None => {}
            Some(index) => self.remove(index),
        }
    }

    // The index that a name is. An empty list needs none.
    fn index_of(&self, name: &Text) -> Option<u32>
        ensures name { IfSome result (λ index. name.now ≡ decimal index) }
        ensures missing { IfNone result (property_at (elements_of self.now) name.now ≡ None) }
    {
        if self.slots.is_empty() {
            return None;
        }
        array_index(name)
    }

    // The place of the slot that has this index.
    fn place_of(&self, index: u32) -> Option<usize>
        ensures found { IfSome result (λ at. HasIndex self.now index at) }
        ensures missing { IfNone result (property_at (elements_of self.now) (decimal index) ≡ None) }
    {
        let at = index as usize;
        if has_index(&self.slots, at, index) {
            return Some(at);
        }
        if ends_below(&self.slots, index) {
            return None;
        }
        searched(&self.slots, index)
    }

    // Takes the gaps at the end out, and the others once there may be many.
    fn close_gaps(&mut self)
        ensures { elements_of self.new ≡ elements_of self.old }
    {
        drop_empty_end(&mut self.slots);
        if self.deletions > self.slots.len() / 2 {
            drop_gaps(&mut self.slots);
            self.deletions = 0;
        }
    }

    /// The properties with their names, in order.
    pub fn entries(&self, alloc: Global) -> Result<Vec<(Text, Property)>, Memory>
        ensures entries { IfOk result (λ row. row.items ≡ elements_of self.now) }
        ensures differ { IfOk result (λ row. NamesDiffer row.items) }
    {
        let mut row = Vec::new(alloc);
        for slot in &self.slots {
            if let Some(property) = &slot.1 {
                row.push((index_name(alloc, slot.0)?, property.copy(alloc)?))?;
            }
        }
        Ok(row)
    }

    /// The names that are listed, rising.
    pub fn listed_names(&self, alloc: Global) -> Result<TextList, Memory>
        ensures { IfOk result (λ names. names ≡ listed_names_of (elements_of self.now)) }
    {
        let mut names = TextList::new(alloc);
        for slot in &self.slots {
            if is_listed(&slot.1) {
                names.push(alloc, index_name(alloc, slot.0)?)?;
            }
        }
        Ok(names)
    }
}

fn copied_slots(alloc: Global, slots: &[Slot]) -> Result<Vec<Slot>, Memory>
    ensures { IfOk result (λ copies. copies.items ≡ slots.now) }
{
    let mut copies = Vec::with_capacity(alloc, slots.len())?;
    for slot in slots {
        copies.push((slot.0, copied_content(alloc, &slot.1)?))?;
    }
    Ok(copies)
}

fn copied_content(alloc: Global, content: &Option<Property>) -> Result<Option<Property>, Memory>
    ensures { IfOk result (λ copy. copy ≡ content.now) }
{
    match content {
        None => Ok(None),
        Some(property) => Ok(Some(property.copy(alloc)?)),
    }
}

fn has_index(slots: &[Slot], at: usize, index: u32) -> bool
    ensures { result ≡ has_index (slice_get slots.now at) index }
{
    match slots.get(at) {
        None => false,
        Some(slot) => slot.0 == index,
    }
}

// The place of the slot that has this index, by halving.
fn searched(slots: &[Slot], index: u32) -> Option<usize>
    requires { AreRising 0 slots.now }
    ensures found { IfSome result (λ at. HasIndex slots.now index at) }
    ensures missing { IfNone result (property_at (elements_of slots.now) (decimal index) ≡ None) }
{
    match slots.binary_search_by_key(&index, |slot| slot.0) {
        Ok(at) => Some(at),
        Err(_) => None,
    }
}

fn ends_below(slots: &[Slot], index: u32) -> bool
    ensures { result ≡ is_below (slice_get slots.now (length slots.now - 1)) index }
{
    match slots.last() {
        None => true,
        Some(slot) => slot.0 < index,
    }
}

fn is_listed(content: &Option<Property>) -> bool
    ensures { result ≡ is_listed content.now }
{
    match content {
        None => false,
        Some(property) => property.listed,
    }
}

// Puts a property behind the others. A full row grows by a half, so that a few take little more room than they need.
fn append(slots: &mut Vec<Slot>, index: u32, property: Property) -> Result<(), Memory>
    ensures ok { OnOk result (slots.new.items ≡ slots.old.items ++ (index, Some property) ∷ []) }
    ensures unchanged { OnErr result (slots.new.items ≡ slots.old.items) }
{
    if slots.len() == slots.capacity() {
        slots.reserve_exact(slots.len() / 2 + 1)?;
    }
    slots.push((index, Some(property)))?;
    Ok(())
}

// Takes the gaps at the end out.
fn drop_empty_end(slots: &mut Vec<Slot>)
    requires { AreRising 0 slots.old.items }
    ensures same { elements_of slots.new.items ≡ elements_of slots.old.items }
    ensures rising { AreRising 0 slots.new.items }
{
    while ends_empty(slots) {
        let _empty = slots.pop();
    }
}

fn ends_empty(slots: &[Slot]) -> bool
    ensures { result ≡ is_gap (slice_get slots.now (length slots.now - 1)) }
{
    matches!(slots.last(), Some((_, None)))
}

// Takes all gaps out. It takes no memory.
fn drop_gaps(slots: &mut Vec<Slot>)
    ensures { slots.new.items ≡ filter is_filled slots.old.items }
{
    slots.retain(|slot| slot.1.is_some());
}
