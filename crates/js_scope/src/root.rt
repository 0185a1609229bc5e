// Nested parts, each resolved by a resolver that has room for one part less.
ghost use Rattle.std.specs.Prelude.{OnOk};
ghost use Rattle.js_binding.specs.Resolved as spec;
ghost use Rattle.scope_names.specs.Around.{scopes_of};
ghost use Rattle.js_scope.specs.Gives.{Gives};

use crate::expressions::parts_of_expression;
use crate::resolver::Resolver;
use crate::statements::parts_of_statement;
use js_tree::{Expression, FunctionList, Statement};
use scope_names::Scopes;
use std::alloc::Global;
use utf16_text::Memory;

/// A nested expression. Memory comes, too, where more parts are nested than there is room for.
#[cycle(parts)]
pub fn resolve_expression(
    alloc: Global,
    room: u32,
    scopes: &Scopes<'_>,
    functions: &mut FunctionList,
    e: &mut Expression,
) -> Result<(), Memory>
    ensures { OnOk result (Gives (spec.expression_in (scopes_of scopes.now) e.old) functions.old e.new functions.new) }
{
    if room == 0 {
        return Err(Memory);
    }
    let resolver = Resolver {
        alloc,
        room: room - 1,
        expressions: resolve_expression,
        statements: resolve_statement,
    };
    parts_of_expression(&resolver, scopes, functions, e)
}

/// A nested statement. Memory comes, too, where more parts are nested than there is room for.
#[cycle(parts)]
pub fn resolve_statement(
    alloc: Global,
    room: u32,
    scopes: &Scopes<'_>,
    functions: &mut FunctionList,
    s: &mut Statement,
) -> Result<(), Memory>
    ensures { OnOk result (Gives (spec.statement_in (scopes_of scopes.now) s.old) functions.old s.new functions.new) }
{
    if room == 0 {
        return Err(Memory);
    }
    let resolver = Resolver {
        alloc,
        room: room - 1,
        expressions: resolve_expression,
        statements: resolve_statement,
    };
    parts_of_statement(&resolver, scopes, functions, s)
}
