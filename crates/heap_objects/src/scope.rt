// One scope.
ghost use Rattle.std.specs.Prelude.{◌≡◌, IfOk, replicate};
ghost use Rattle.heap_objects.specs.Scope.{fresh_scope, slot_in, scope_with};
ghost use Rattle.heap_values.specs.declared.value.Value.TheVariants.{Undefined};

use heap_values::{ScopeId, Value};
use shared_list::Copied;
use std::alloc::Global;
use std::marker::Model;
use utf16_text::Memory;

/// A scope: the values of its names by slot, and the scope around it.
#[derive(Drop)]
pub struct Scope {
    slots: Vec<Value>,
    parent: Option<ScopeId>,
}

impl Model for Scope {
    ghost use Rattle.heap_values.specs.Views.{ScopeView};

    ghost Value = { ScopeView };

    ghost view = { λ s. record { slots = s.slots.items; parent = s.parent } };
}

impl Scope {
    /// A scope of so many slots, each undefined.
    pub fn new(alloc: Global, size: u32, parent: Option<ScopeId>) -> Result<Scope, Memory>
        ensures { IfOk result (λ scope. scope ≡ fresh_scope size parent) }
    {
        let slots = undefined_slots(alloc, size)?;
        Ok(Scope { slots, parent })
    }

    pub fn parent(&self) -> Option<ScopeId>
        ensures { result ≡ self.now.parent }
    {
        self.parent
    }

    /// The value of a slot; undefined where there is none.
    pub fn read(&self, alloc: Global, slot: u32) -> Result<Value, Memory>
        ensures { IfOk result (λ value. value ≡ slot_in self.now slot) }
    {
        let at = slot as usize;
        if at >= self.slots.len() {
            return Ok(Value::Undefined);
        }
        self.slots[at].copy(alloc)
    }

    /// Writes a slot; nothing changes where there is none.
    pub fn write(&mut self, slot: u32, value: Value)
        ensures { self.new ≡ scope_with self.old slot value }
    {
        let at = slot as usize;
        if at < self.slots.len() {
            self.slots[at] = value;
        }
    }
}

impl Copied for Scope {
    fn copied(&self, alloc: Global) -> Result<Scope, Memory> {
        let slots = copied_values(alloc, &self.slots)?;
        Ok(Scope {
            slots,
            parent: self.parent,
        })
    }
}

fn copied_values(alloc: Global, values: &[Value]) -> Result<Vec<Value>, Memory>
    ensures { IfOk result (λ copies. copies.items ≡ values.now) }
{
    let mut copies = Vec::with_capacity(alloc, values.len())?;
    for value in values {
        copies.push(value.copy(alloc)?)?;
    }
    Ok(copies)
}

fn undefined_slots(alloc: Global, size: u32) -> Result<Vec<Value>, Memory>
    ensures { IfOk result (λ slots. slots.items ≡ replicate size Undefined) }
{
    let mut slots = Vec::with_capacity(alloc, size as usize)?;
    for _slot in 0..size {
        slots.push(Value::Undefined)?;
    }
    Ok(slots)
}
