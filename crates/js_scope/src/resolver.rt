// Nested parts, by two functions that are passed in.
ghost use Rattle.js_scope.specs.Nested.{ResolvesNested};

use crate::nested::Nested;
use js_tree::{Expression, FunctionList, Statement};
use scope_names::Scopes;
use std::alloc::Global;
use utf16_text::Memory;

/// Resolves nested parts by functions that are passed in, so that no function but these calls itself.
#[derive(Drop)]
pub struct Resolver<E, S> {
    pub alloc: Global,
    /// How many parts may be nested, one in another.
    pub room: u32,
    /// Resolves a nested expression with this room.
    pub expressions: E,
    /// Resolves a nested statement with this room.
    pub statements: S,
}

impl<
    E: Fn(Global, u32, &Scopes<'_>, &mut FunctionList, &mut Expression) -> Result<(), Memory>,
    S: Fn(Global, u32, &Scopes<'_>, &mut FunctionList, &mut Statement) -> Result<(), Memory>,
> Nested for Resolver<E, S> {
    ghost holds = { λ r. ResolvesNested E.Fn S.Fn r };

    fn alloc(&self) -> Global {
        self.alloc
    }

    fn expression(
        &self,
        scopes: &Scopes<'_>,
        functions: &mut FunctionList,
        e: &mut Expression,
    ) -> Result<(), Memory> {
        (self.expressions)(self.alloc, self.room, scopes, functions, e)
    }

    fn statement(
        &self,
        scopes: &Scopes<'_>,
        functions: &mut FunctionList,
        s: &mut Statement,
    ) -> Result<(), Memory> {
        (self.statements)(self.alloc, self.room, scopes, functions, s)
    }
}
