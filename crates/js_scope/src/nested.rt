// How the resolving of a part goes on to the parts nested in it.
ghost use Rattle.std.specs.Prelude.{OnOk};
ghost use Rattle.js_binding.specs.Resolved.{expression_in, statement_in};
ghost use Rattle.scope_names.specs.Around.{scopes_of};
ghost use Rattle.js_scope.specs.Gives.{Gives};

use js_tree::{Expression, FunctionList, Statement};
use scope_names::Scopes;
use std::alloc::Global;
use utf16_text::Memory;

/// What resolves nested expressions and statements.
pub trait Nested {
    /// What its calls need.
    ghost holds: { Self → Type 0 };

    fn alloc(&self) -> Global;

    /// Resolves a nested expression where it stands.
    fn expression(
        &self,
        scopes: &Scopes<'_>,
        functions: &mut FunctionList,
        e: &mut Expression,
    ) -> Result<(), Memory>
        requires { holds self.now }
        ensures { OnOk result (Gives (expression_in (scopes_of scopes.now) e.old) functions.old e.new functions.new) };

    /// Resolves a nested statement where it stands.
    fn statement(
        &self,
        scopes: &Scopes<'_>,
        functions: &mut FunctionList,
        s: &mut Statement,
    ) -> Result<(), Memory>
        requires { holds self.now }
        ensures { OnOk result (Gives (statement_in (scopes_of scopes.now) s.old) functions.old s.new functions.new) };
}
