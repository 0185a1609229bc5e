// A script, resolved.
ghost use Rattle.std.specs.Prelude.{IfOk};
ghost use Rattle.js_binding.specs.Resolved.{resolved};
ghost use Rattle.js_scope.specs.Gives.{IsProgramOf};

use crate::Program;
use crate::parts::Part;
use crate::resolver::Resolver;
use crate::root::{resolve_expression, resolve_statement};
use js_tree::{FunctionList, Script};
use scope_names::Scopes;
use std::alloc::Global;
use utf16_text::Memory;

/// The program of a script: each name has its slot, and each function stands by its number, in the order of first
/// tokens (ECMA-262 5.1, sections 10.2 and 10.5). Memory is its only other answer.
pub fn resolve(alloc: Global, script: Script) -> Result<Program, Memory>
    ensures { IfOk result (IsProgramOf (resolved script)) }
{
    let mut body = script.into_body();
    let mut functions = FunctionList::new(alloc);
    let resolver = Resolver {
        alloc,
        // No script that lies in memory is nested as deep.
        room: u32::MAX,
        expressions: resolve_expression,
        statements: resolve_statement,
    };
    body.resolve(&resolver, &Scopes::Outermost, &mut functions)?;
    Ok(Program { body, functions })
}
