// The heap and its calls.
ghost use Rattle.std.specs.Prelude.{
  ◌≡◌,
  ◌<◌,
  ◌≤◌,
  ◌+◌,
  ◌⊎◌,
  length,
  slice_get,
  IfSome,
  IfOk,
  IfErr,
  OnOk,
  OnErr,
  ◌++◌,
  ◌∷◌,
  [],
  true,
  option_map,
};
ghost use Rattle.std.specs.Fmt.{decimal};
ghost use Rattle.heap_objects.specs.Object.{own_marks, property_after, value_property};
ghost use Rattle.object_heap.specs.Fresh.{fresh_heap, built_in_number};
ghost use Rattle.object_heap.specs.Heap.{
  object_at,
  scope_at,
  kind_in,
  prototype_in,
  inherits_from,
  length_of,
  found_of,
  own_found_in,
  own_marks_in,
  is_absent,
  older_of,
  made_of,
  pattern_made_of,
  literal_at,
  scope_made_of,
  stored,
  length_stored,
  limited_cost,
  property_cost,
  deleted_of,
  own_keys_in,
  keys_of,
  parent_in,
  slot_of,
  slot_written_of,
  text_spent_of,
};
ghost use Rattle.utf16_text.specs.declared.limits.TheConstants.{LONGEST_TEXT};
ghost use Rattle.object_heap.specs.declared.limits.TheConstants.{LONGEST_ARRAY, MOST_CELLS, MOST_TEXT};

use crate::fresh::{make_built_ins, object_of};
use crate::kept_literal::KeptLiteral;
use crate::limits::{LONGEST_ARRAY, MOST_CELLS, MOST_TEXT};
use crate::pattern_names::PatternNames;
use heap_elements::index_name;
use heap_objects::{Marks, NameSet, Object, Scope};
use heap_values::{BuiltIn, Content, Found, HeapAnswer, Kind, ObjectId, Property, ScopeId, Value};
use js_pattern_reader::PatternLiteral;
use shared_list::{SharedList, push_both};
use std::alloc::Global;
use std::marker::Model;
use utf16_text::{LONGEST_TEXT, Memory, Text, TextList};

/// The heap of a run, seen as its objects, scopes and literals of patterns in the order of creation, the cells made and
/// the units of text made.
#[derive(Drop)]
pub struct Heap {
    objects: SharedList<Object>,
    scopes: SharedList<Scope>,
    literals: SharedList<KeptLiteral>,
    names: PatternNames,
    cells: u64,
    units: u64,
}

impl Model for Heap {
    ghost use Rattle.std.specs.Prelude.{◌≤◌, ◌+◌, length};
    ghost use Rattle.heap_values.specs.Views.{HeapView};
    ghost use Rattle.std.specs.Prelude.{◌≡◌};
    ghost use Rattle.object_heap.specs.Heap.{PrototypesAreOlder};
    ghost use Rattle.object_heap.specs.PatternNames.{pattern_names};
    ghost use Rattle.object_heap.specs.declared.limits.TheConstants.{MOST_CELLS, MOST_TEXT};

    ghost Value = { HeapView };

    ghost view = { λ h. record { objects = h.objects; scopes = h.scopes; literals = h.literals; cells = h.cells; units = h.units } };

    ghost invariant = { λ h. (h.cells ≤ MOST_CELLS) × (h.units ≤ MOST_TEXT) × (length h.objects ≤ h.cells + 1000) × (length h.scopes ≤ h.cells + 1) × (length h.literals ≤ h.cells) × (h.names ≡ pattern_names) × PrototypesAreOlder h.objects };
}

impl Heap {
    /// The heap in which a run begins: the built-in objects and one outermost scope without names. No cell is counted.
    pub fn new(alloc: Global) -> Result<Heap, Memory>
        ensures { IfOk result (λ heap. heap ≡ fresh_heap) }
    {
        let mut scopes = Vec::new(alloc);
        append_scope(&mut scopes, Scope::new(alloc, 0, None)?)?;
        Ok(Heap {
            objects: SharedList::from_vec(alloc, make_built_ins(alloc)?)?,
            scopes: SharedList::from_vec(alloc, scopes)?,
            literals: SharedList::from_vec(alloc, Vec::new(alloc))?,
            names: PatternNames::new(alloc)?,
            cells: 0,
            units: 0,
        })
    }

    /// The same heap, whose copies share all that it has now.
    pub fn into_shared(self, alloc: Global) -> Result<Heap, Memory>
        ensures { IfOk result (λ heap. heap ≡ self) }
    {
        let Heap {
            objects,
            scopes,
            literals,
            names,
            cells,
            units,
        } = self;
        Ok(Heap {
            objects: objects.share(alloc)?,
            scopes: scopes.share(alloc)?,
            literals: literals.share(alloc)?,
            names,
            cells,
            units,
        })
    }

    /// An equal heap. It shares what this one shares, until either writes it.
    pub fn copy(&self, alloc: Global) -> Result<Heap, Memory>
        ensures { IfOk result (λ heap. heap ≡ self.now) }
    {
        Ok(Heap {
            objects: self.objects.copy(alloc)?,
            scopes: self.scopes.copy(alloc)?,
            literals: self.literals.copy(alloc)?,
            names: self.names.copy(alloc)?,
            cells: self.cells,
            units: self.units,
        })
    }

    /// The outermost scope.
    pub fn outer(&self) -> ScopeId
        ensures { result.0 ≡ 0 }
    {
        ScopeId(0)
    }

    /// A built-in object.
    pub fn built_in(&self, which: BuiltIn) -> ObjectId
        ensures { result.0 ≡ built_in_number which }
    {
        object_of(which)
    }

    /// What the object is. One that isn't of this heap reads as plain.
    pub fn kind(&self, object: ObjectId) -> Kind
        ensures { result ≡ kind_in (object_at self.now object) }
    {
        match self.objects.get(object.0 as usize) {
            None => Kind::Plain,
            Some(object) => object.kind(),
        }
    }

    /// The object's prototype, which is older than the object. None where it has none.
    pub fn prototype(&self, object: ObjectId) -> Option<ObjectId>
        ensures prototype { result ≡ prototype_in (object_at self.now object) }
        ensures older { IfSome result (λ p. p.0 < object.0) }
    {
        match self.objects.get(object.0 as usize) {
            None => None,
            Some(object) => object.prototype(),
        }
    }

    /// Whether the prototype is among the prototypes of the object (ECMA-262 5.1, section 15.3.5.3).
    pub fn inherits_from(&self, object: ObjectId, prototype: ObjectId) -> bool
        ensures { result ≡ inherits_from self.now object prototype }
    {
        let mut next = self.prototype(object);
        while let Some(id) = next {
            if id == prototype {
                return true;
            }
            next = self.prototype(id);
        }
        false
    }

    /// The length of an array; 0 for any other object.
    pub fn length(&self, object: ObjectId) -> u32
        ensures { result ≡ length_of (object_at self.now object) }
    {
        match self.objects.get(object.0 as usize) {
            None => 0,
            Some(object) => object.length(),
        }
    }

    /// The scope around the scope. None where there is none.
    pub fn parent(&self, scope: ScopeId) -> Option<ScopeId>
        ensures { result ≡ parent_in (scope_at self.now scope) }
    {
        match self.scopes.get(scope.0 as usize) {
            None => None,
            Some(scope) => scope.parent(),
        }
    }

    /// The cells that this run has made.
    pub fn cells(&self) -> u64
        ensures { result ≡ self.now.cells }
    {
        self.cells
    }

    /// What the object, or else the nearest of its prototypes that has the name, has under it (ECMA-262 5.1, section
    /// 8.12.2).
    pub fn get(&self, alloc: Global, object: ObjectId, name: &Text) -> Result<Found, Memory>
        ensures { IfOk result (λ found. found ≡ found_of self.now object name.now) }
    {
        let mut next = Some(object);
        while let Some(id) = next {
            let found = self.get_own(alloc, id, name)?;
            if !is_nothing(&found) {
                return Ok(found);
            }
            next = self.prototype(id);
        }
        Ok(Found::Absent)
    }

    /// What `get` finds under an index as a name. No name is made for an element of the object itself.
    pub fn get_index(&self, alloc: Global, object: ObjectId, index: u32) -> Result<Found, Memory>
        ensures { IfOk result (λ found. found ≡ found_of self.now object (decimal index)) }
    {
        let element = self.get_element(alloc, object, index)?;
        if !is_nothing(&element) {
            return Ok(element);
        }
        self.get(alloc, object, &index_name(alloc, index)?)
    }

    // What the object itself has under an index, where it is one of its elements.
    fn get_element(&self, alloc: Global, object: ObjectId, index: u32) -> Result<Found, Memory>
        ensures { IfOk result (λ found. (found ≡ Found.Absent) ⊎ (found ≡ own_found_in (object_at self.now object) (decimal index))) }
    {
        match self.objects.get(object.0 as usize) {
            None => Ok(Found::Absent),
            Some(object) => object.find_element(alloc, index),
        }
    }

    /// What the object itself has under a name (ECMA-262 5.1, section 8.12.1).
    pub fn get_own(&self, alloc: Global, object: ObjectId, name: &Text) -> Result<Found, Memory>
        ensures { IfOk result (λ found. found ≡ own_found_in (object_at self.now object) name.now) }
    {
        match self.objects.get(object.0 as usize) {
            None => Ok(Found::Absent),
            Some(object) => object.find_own(alloc, name),
        }
    }

    /// The marks of the object's own property of this name. The length of an array is none.
    pub fn own_marks(&self, object: ObjectId, name: &Text) -> Option<Marks>
        ensures { result ≡ own_marks_in (object_at self.now object) name.now }
    {
        self.objects.get(object.0 as usize)?.own_marks(name)
    }

    /// Makes an object without properties, which is one cell. A prototype that isn't older is left out.
    pub fn make(
        &mut self,
        alloc: Global,
        kind: Kind,
        prototype: Option<ObjectId>,
    ) -> Result<ObjectId, HeapAnswer>
        ensures ok { IfOk result (λ id. made_of self.old kind prototype ≡ Ok (id, self.new)) }
        ensures err { IfErr result (λ e. (e ≡ HeapAnswer.Memory) ⊎ (made_of self.old kind prototype ≡ Err e)) }
        ensures unchanged { OnErr result (self.new ≡ self.old) }
    {
        if self.cells >= MOST_CELLS {
            return Err(HeapAnswer::HeapFull);
        }
        let at = self.objects.len();
        let made = Object::new(alloc, kind, older(prototype, at));
        self.objects.push(made)?;
        self.cells += 1;
        Ok(ObjectId(at as u32))
    }

    /// Makes the object of a pattern literal, with what it says of it, which is one cell (ECMA-262 5.1, section
    /// 15.10.7). A prototype that isn't older is left out.
    pub fn make_pattern(
        &mut self,
        alloc: Global,
        literal: &PatternLiteral,
        prototype: Option<ObjectId>,
    ) -> Result<ObjectId, HeapAnswer>
        ensures ok { IfOk result (λ id. pattern_made_of self.old literal.now prototype ≡ Ok (id, self.new)) }
        ensures err { IfErr result (λ e. (e ≡ HeapAnswer.Memory) ⊎ (pattern_made_of self.old literal.now prototype ≡ Err e)) }
        ensures unchanged { OnErr result (self.new ≡ self.old) }
    {
        if self.cells >= MOST_CELLS {
            return Err(HeapAnswer::HeapFull);
        }
        let at = self.objects.len();
        let number = self.literals.len() as u32;
        let made = self
            .names
            .object(alloc, number, literal, older(prototype, at))?;
        let kept = KeptLiteral::new(literal.copy()?);
        push_both(&mut self.objects, &mut self.literals, made, kept)?;
        self.cells += 1;
        Ok(ObjectId(at as u32))
    }

    /// The literal of a pattern. None for any other object.
    pub fn literal(&self, object: ObjectId) -> Option<&PatternLiteral>
        ensures { option_map (λ literal. literal.now) result ≡ literal_at self.now object }
    {
        match self.kind(object) {
            Kind::Pattern(number) => Some(self.literals.get(number as usize)?.literal()),
            _ => None,
        }
    }

    /// Makes a scope of so many slots, each undefined. It is one cell and one for each slot.
    pub fn make_scope(
        &mut self,
        alloc: Global,
        size: u32,
        parent: Option<ScopeId>,
    ) -> Result<ScopeId, HeapAnswer>
        ensures ok { IfOk result (λ id. scope_made_of self.old size parent ≡ Ok (id, self.new)) }
        ensures err { IfErr result (λ e. (e ≡ HeapAnswer.Memory) ⊎ (scope_made_of self.old size parent ≡ Err e)) }
        ensures unchanged { OnErr result (self.new ≡ self.old) }
    {
        let cost = u64::from(size) + 1;
        if self.cells + cost > MOST_CELLS {
            return Err(HeapAnswer::HeapFull);
        }
        let at = self.scopes.len();
        self.scopes.push(Scope::new(alloc, size, parent)?)?;
        self.cells += cost;
        Ok(ScopeId(at as u32))
    }

    /// Writes a value under a name of the object (ECMA-262 5.1, section 8.12.5). A property that is added is listed and
    /// can be deleted. A write of an array's `length` sets it; where it falls, the elements from there on are deleted.
    ///
    /// ArrayTooLong comes where the length would pass 100,000, HeapFull where the cells would pass 2,000,000, and
    /// BadLength where a `length` is no whole number from 0.
    pub fn put(
        &mut self,
        alloc: Global,
        object: ObjectId,
        name: &Text,
        value: Value,
    ) -> Result<(), HeapAnswer>
        ensures ok { OnOk result (stored self.old object name.now value (property_after value) ≡ Ok self.new) }
        ensures err { IfErr result (λ e. (e ≡ HeapAnswer.Memory) ⊎ (stored self.old object name.now value (property_after value) ≡ Err e)) }
        ensures unchanged { OnErr result (self.new ≡ self.old) }
    {
        let at = object.0 as usize;
        let Some(holder) = self.objects.get(at) else {
            return Ok(());
        };
        if holder.is_length(name) {
            return self.put_length(alloc, at, value);
        }
        let old = holder.own_marks(name);
        let cost = write_cost(self.cells, holder, name, old)?;
        let holder = self.objects.get_mut(alloc, at)?;
        holder.put(alloc, name, old, value)?;
        self.cells += cost;
        Ok(())
    }

    /// Does what `put` does under an index as a name. No name is made for an element, nor for the next one.
    pub fn put_index(
        &mut self,
        alloc: Global,
        object: ObjectId,
        index: u32,
        value: Value,
    ) -> Result<(), HeapAnswer>
        ensures ok { OnOk result (stored self.old object (decimal index) value (property_after value) ≡ Ok self.new) }
        ensures err { IfErr result (λ e. (e ≡ HeapAnswer.Memory) ⊎ (stored self.old object (decimal index) value (property_after value) ≡ Err e)) }
        ensures unchanged { OnErr result (self.new ≡ self.old) }
    {
        let at = object.0 as usize;
        let Some(holder) = self.objects.get(at) else {
            return Ok(());
        };
        let Some(cost) = holder.element_cost(index) else {
            return self.put(alloc, object, &index_name(alloc, index)?, value);
        };
        let length = holder.grown_length_at(index);
        let cost = limited_cost(self.cells, length, cost)?;
        let holder = self.objects.get_mut(alloc, at)?;
        holder.put_index(alloc, index, value)?;
        self.cells += cost;
        Ok(())
    }

    /// Adds or replaces a property with these marks. It refuses what `put` refuses, and writes an array's `length` as
    /// it.
    pub fn define(
        &mut self,
        alloc: Global,
        object: ObjectId,
        name: &Text,
        value: Value,
        listed: bool,
        deletable: bool,
    ) -> Result<(), HeapAnswer>
        ensures ok { OnOk result (stored self.old object name.now value (λ _. value_property value listed deletable) ≡ Ok self.new) }
        ensures err { IfErr result (λ e. (e ≡ HeapAnswer.Memory) ⊎ (stored self.old object name.now value (λ _. value_property value listed deletable) ≡ Err e)) }
        ensures unchanged { OnErr result (self.new ≡ self.old) }
    {
        let at = object.0 as usize;
        let Some(holder) = self.objects.get(at) else {
            return Ok(());
        };
        if holder.is_length(name) {
            return self.put_length(alloc, at, value);
        }
        let old = holder.own_marks(name);
        let cost = write_cost(self.cells, holder, name, old)?;
        let property = Property {
            content: Content::Value(value),
            listed,
            deletable,
        };
        let holder = self.objects.get_mut(alloc, at)?;
        holder.define(alloc, name, property)?;
        self.cells += cost;
        Ok(())
    }

    /// Does what `define` does under an index as a name, listed and deletable. No name is made for an element, nor for
    /// the next one.
    pub fn define_index(
        &mut self,
        alloc: Global,
        object: ObjectId,
        index: u32,
        value: Value,
    ) -> Result<(), HeapAnswer>
        ensures ok { OnOk result (stored self.old object (decimal index) value (λ _. value_property value true true) ≡ Ok self.new) }
        ensures err { IfErr result (λ e. (e ≡ HeapAnswer.Memory) ⊎ (stored self.old object (decimal index) value (λ _. value_property value true true) ≡ Err e)) }
        ensures unchanged { OnErr result (self.new ≡ self.old) }
    {
        let at = object.0 as usize;
        let Some(holder) = self.objects.get(at) else {
            return Ok(());
        };
        let Some(cost) = holder.element_cost(index) else {
            return self.define(alloc, object, &index_name(alloc, index)?, value, true, true);
        };
        let length = holder.grown_length_at(index);
        let cost = limited_cost(self.cells, length, cost)?;
        let property = Property {
            content: Content::Value(value),
            listed: true,
            deletable: true,
        };
        let holder = self.objects.get_mut(alloc, at)?;
        holder.define_index(alloc, index, property)?;
        self.cells += cost;
        Ok(())
    }

    // Sets the length of the array of this number.
    fn put_length(&mut self, alloc: Global, at: usize, value: Value) -> Result<(), HeapAnswer>
        requires { at < length self.old.objects }
        ensures ok { OnOk result (IfSome (slice_get self.old.objects at) (λ o. length_stored self.old at o value ≡ Ok self.new)) }
        ensures err { IfErr result (λ e. (e ≡ HeapAnswer.Memory) ⊎ IfSome (slice_get self.old.objects at) (λ o. length_stored self.old at o value ≡ Err e)) }
        ensures unchanged { OnErr result (self.new ≡ self.old) }
    {
        let Value::Number(size) = value else {
            return Err(HeapAnswer::BadLength);
        };
        let size = size.get();
        if size < 0 {
            return Err(HeapAnswer::BadLength);
        }
        if size > i64::from(LONGEST_ARRAY) {
            return Err(HeapAnswer::ArrayTooLong);
        }
        let size = size as u32;
        let Some(holder) = self.objects.get(at) else {
            return Ok(());
        };
        let cost = u64::from(size.saturating_sub(holder.length()));
        if self.cells + cost > MOST_CELLS {
            return Err(HeapAnswer::HeapFull);
        }
        let holder = self.objects.get_mut(alloc, at)?;
        holder.set_length(alloc, size)?;
        self.cells += cost;
        Ok(())
    }

    /// Deletes the property of this name (ECMA-262 5.1, section 8.12.7). The answer is false exactly where it is there
    /// and can't be deleted; then it stays.
    pub fn delete(&mut self, alloc: Global, object: ObjectId, name: &Text) -> Result<bool, Memory>
        ensures answer { IfOk result (λ gone. gone ≡ (deleted_of self.old object name.now).0) }
        ensures after { OnOk result (self.new ≡ (deleted_of self.old object name.now).1) }
        ensures unchanged { OnErr result (self.new ≡ self.old) }
    {
        let at = object.0 as usize;
        if at >= self.objects.len() {
            return Ok(true);
        }
        let holder = self.objects.get_mut(alloc, at)?;
        Ok(holder.delete(name))
    }

    /// The names that `for`-`in` lists (ECMA-262 5.1, section 12.6.4), in this profile's order: of the object the array
    /// indexes, rising, then its other names in the order of creation; then those of its prototypes that weren't listed
    /// yet.
    pub fn keys(&self, alloc: Global, object: ObjectId) -> Result<TextList, Memory>
        ensures { IfOk result (λ names. names ≡ keys_of self.now object) }
    {
        let mut names = NameSet::new(alloc);
        let mut next = Some(object);
        while let Some(id) = next {
            names.add_all(alloc, &self.own_keys(alloc, id)?)?;
            next = self.prototype(id);
        }
        Ok(names.into_list())
    }

    /// The same of the object alone.
    pub fn own_keys(&self, alloc: Global, object: ObjectId) -> Result<TextList, Memory>
        ensures { IfOk result (λ names. names ≡ own_keys_in (object_at self.now object)) }
    {
        match self.objects.get(object.0 as usize) {
            None => Ok(TextList::new(alloc)),
            Some(object) => object.listed_names(alloc),
        }
    }

    /// The value in a slot; undefined where there is none.
    pub fn read_slot(&self, alloc: Global, scope: ScopeId, slot: u32) -> Result<Value, Memory>
        ensures { IfOk result (λ value. value ≡ slot_of self.now scope slot) }
    {
        match self.scopes.get(scope.0 as usize) {
            None => Ok(Value::Undefined),
            Some(scope) => scope.read(alloc, slot),
        }
    }

    /// Writes a slot; nothing changes where there is none.
    pub fn write_slot(
        &mut self,
        alloc: Global,
        scope: ScopeId,
        slot: u32,
        value: Value,
    ) -> Result<(), Memory>
        ensures after { OnOk result (self.new ≡ slot_written_of self.old scope slot value) }
        ensures unchanged { OnErr result (self.new ≡ self.old) }
    {
        let at = scope.0 as usize;
        if at >= self.scopes.len() {
            return Ok(());
        }
        let holder = self.scopes.get_mut(alloc, at)?;
        holder.write(slot, value);
        Ok(())
    }

    /// Counts a text that is made. StringTooLong comes where it has more than 262,144 units, else TextSpent where the
    /// units made would pass 16,777,216.
    pub fn spend_text(&mut self, units: usize) -> Result<(), HeapAnswer>
        ensures ok { OnOk result (text_spent_of self.old units ≡ Ok self.new) }
        ensures err { IfErr result (λ e. text_spent_of self.old units ≡ Err e) }
        ensures unchanged { OnErr result (self.new ≡ self.old) }
    {
        if units > LONGEST_TEXT {
            return Err(HeapAnswer::StringTooLong);
        }
        let spent = self.units + units as u64;
        if spent > MOST_TEXT {
            return Err(HeapAnswer::TextSpent);
        }
        self.units = spent;
        Ok(())
    }
}

fn is_nothing(found: &Found) -> bool
    ensures { result ≡ is_absent found.now }
{
    matches!(found, Found::Absent)
}

// The cells that a write under a name takes, where neither the array would be too long nor the heap full. What it finds
// under the name has the marks `old`.
fn write_cost(
    cells: u64,
    object: &Object,
    name: &Text,
    old: Option<Marks>,
) -> Result<u64, HeapAnswer>
    requires few { cells ≤ MOST_CELLS }
    requires old { old ≡ own_marks object.now name.now }
    ensures cost { result ≡ property_cost cells object.now name.now }
    ensures within { IfOk result (λ cost. cells + cost ≤ MOST_CELLS) }
{
    limited_cost(cells, object.grown_length(name), object.put_cost(name, old))
}

// So many cells more, where neither the array of this length would be too long nor the heap full.
fn limited_cost(cells: u64, length: u32, cost: u64) -> Result<u64, HeapAnswer>
    requires { cells ≤ MOST_CELLS }
    ensures cost { result ≡ limited_cost cells length cost }
    ensures within { IfOk result (λ cost. cells + cost ≤ MOST_CELLS) }
{
    if length > LONGEST_ARRAY {
        return Err(HeapAnswer::ArrayTooLong);
    }
    if cost > MOST_CELLS - cells {
        return Err(HeapAnswer::HeapFull);
    }
    Ok(cost)
}

/// The prototype, where it is older than the object of this number.
fn older(prototype: Option<ObjectId>, at: usize) -> Option<ObjectId>
    ensures { result ≡ older_of prototype at }
{
    match prototype {
        None => None,
        Some(id) => { if (id.0 as usize) < at { Some(id) } else { None } }
    }
}

fn append_scope(scopes: &mut Vec<Scope>, made: Scope) -> Result<(), Memory>
    ensures ok { OnOk result (scopes.new.items ≡ scopes.old.items ++ made ∷ []) }
    ensures unchanged { OnErr result (scopes.new.items ≡ scopes.old.items) }
{
    scopes.push(made)?;
    Ok(())
}
