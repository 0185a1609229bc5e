// Statements and their parts (ECMA-262 5.1, section 12).
ghost use Rattle.std.specs.Prelude.{OnOk};
ghost use Rattle.js_binding.specs.Resolved.{statement_in};
ghost use Rattle.scope_names.specs.Around.{scopes_of};
ghost use Rattle.js_scope.specs.Gives.{Gives};
ghost use Rattle.js_scope.specs.Parts.{
  statement_node_in,
  declared_in,
  branch_in,
  start_part_in,
  target_part_in,
  clause_in,
  catch_in,
};

use crate::names::{bind, one_name};
use crate::nested::Nested;
use crate::parts::{Part, both};
use js_tree::{
    Branch, Catch, Clause, Declared, ForStart, ForTarget, FunctionList, Statement, StatementNode,
};
use scope_names::Scopes;
use utf16_text::Memory;

/// The parts of a statement.
pub fn parts_of_statement<N: Nested>(
    nested: &N,
    scopes: &Scopes<'_>,
    functions: &mut FunctionList,
    s: &mut Statement,
) -> Result<(), Memory>
    requires { N.holds nested.now }
    ensures { OnOk result (Gives (statement_in (scopes_of scopes.now) s.old) functions.old s.new functions.new) }
{
    s.node.resolve(nested, scopes, functions)
}

impl Part for Statement {
    ghost place = { statement_in };

    fn resolve<N: Nested>(
        &mut self,
        nested: &N,
        scopes: &Scopes<'_>,
        functions: &mut FunctionList,
    ) -> Result<(), Memory> {
        nested.statement(scopes, functions, self)
    }
}

impl Part for StatementNode {
    ghost place = { statement_node_in };

    fn resolve<N: Nested>(
        &mut self,
        nested: &N,
        scopes: &Scopes<'_>,
        functions: &mut FunctionList,
    ) -> Result<(), Memory> {
        match self {
            StatementNode::Block(all) => all.resolve(nested, scopes, functions),
            StatementNode::Empty => Ok(()),
            StatementNode::Expression(e) => e.resolve(nested, scopes, functions),
            StatementNode::Debugger => Ok(()),
            StatementNode::Var(all) => all.resolve(nested, scopes, functions),
            StatementNode::If(all, otherwise) => both(nested, scopes, functions, all, otherwise),
            StatementNode::DoWhile(body, test) => both(nested, scopes, functions, body, test),
            StatementNode::While(test, body) => both(nested, scopes, functions, test, body),
            StatementNode::For(start, test, step, body) => {
                both(nested, scopes, functions, start, test)?;
                both(nested, scopes, functions, step, body)
            }
            StatementNode::ForIn(target, object, body) => {
                target.resolve(nested, scopes, functions)?;
                both(nested, scopes, functions, object, body)
            }
            StatementNode::Continue => Ok(()),
            StatementNode::Break => Ok(()),
            StatementNode::Return(value) => value.resolve(nested, scopes, functions),
            StatementNode::Throw(e) => e.resolve(nested, scopes, functions),
            StatementNode::Switch(value, all) => both(nested, scopes, functions, value, all),
            StatementNode::Try(block, catch, last) => {
                block.resolve(nested, scopes, functions)?;
                both(nested, scopes, functions, catch, last)
            }
            StatementNode::Function(x, part) => {
                bind(scopes, x)?;
                part.resolve(nested, scopes, functions)
            }
        }
    }
}

impl Part for Declared {
    ghost place = { declared_in };

    fn resolve<N: Nested>(
        &mut self,
        nested: &N,
        scopes: &Scopes<'_>,
        functions: &mut FunctionList,
    ) -> Result<(), Memory> {
        bind(scopes, &mut self.name)?;
        self.value.resolve(nested, scopes, functions)
    }
}

impl Part for Branch {
    ghost place = { branch_in };

    fn resolve<N: Nested>(
        &mut self,
        nested: &N,
        scopes: &Scopes<'_>,
        functions: &mut FunctionList,
    ) -> Result<(), Memory> {
        self.condition.resolve(nested, scopes, functions)?;
        self.body.resolve(nested, scopes, functions)
    }
}

impl Part for ForStart {
    ghost place = { start_part_in };

    fn resolve<N: Nested>(
        &mut self,
        nested: &N,
        scopes: &Scopes<'_>,
        functions: &mut FunctionList,
    ) -> Result<(), Memory> {
        match self {
            ForStart::Var(_, all) => all.resolve(nested, scopes, functions),
            ForStart::Expression(e) => e.resolve(nested, scopes, functions),
        }
    }
}

impl Part for ForTarget {
    ghost place = { target_part_in };

    fn resolve<N: Nested>(
        &mut self,
        nested: &N,
        scopes: &Scopes<'_>,
        functions: &mut FunctionList,
    ) -> Result<(), Memory> {
        match self {
            ForTarget::Expression(e) => e.resolve(nested, scopes, functions),
            ForTarget::Declared(one) => one.resolve(nested, scopes, functions),
        }
    }
}

impl Part for Clause {
    ghost place = { clause_in };

    fn resolve<N: Nested>(
        &mut self,
        nested: &N,
        scopes: &Scopes<'_>,
        functions: &mut FunctionList,
    ) -> Result<(), Memory> {
        self.test.resolve(nested, scopes, functions)?;
        self.body.resolve(nested, scopes, functions)
    }
}

impl Part for Catch {
    ghost place = { catch_in };

    fn resolve<N: Nested>(
        &mut self,
        nested: &N,
        scopes: &Scopes<'_>,
        functions: &mut FunctionList,
    ) -> Result<(), Memory> {
        let table = one_name(nested.alloc(), &self.name)?;
        let inside = Scopes::Named(&table, &*scopes);
        bind(&inside, &mut self.name)?;
        self.body.resolve(nested, &inside, functions)
    }
}
