// Expressions and their parts (ECMA-262 5.1, section 11).
ghost use Rattle.std.specs.Prelude.{OnOk};
ghost use Rattle.js_binding.specs.Resolved.{expression_in};
ghost use Rattle.scope_names.specs.Around.{scopes_of};
ghost use Rattle.js_scope.specs.Gives.{Gives};
ghost use Rattle.js_scope.specs.Parts.{expression_node_in, property_in, suffix_part_in, suffix_node_in, operand_in};

use crate::names::bind;
use crate::nested::Nested;
use crate::parts::{Part, both};
use js_tree::{Expression, ExpressionNode, FunctionList, Operand, Property, Suffix, SuffixNode};
use scope_names::Scopes;
use utf16_text::Memory;

/// The parts of an expression.
pub fn parts_of_expression<N: Nested>(
    nested: &N,
    scopes: &Scopes<'_>,
    functions: &mut FunctionList,
    e: &mut Expression,
) -> Result<(), Memory>
    requires { N.holds nested.now }
    ensures { OnOk result (Gives (expression_in (scopes_of scopes.now) e.old) functions.old e.new functions.new) }
{
    e.node.resolve(nested, scopes, functions)
}

impl Part for Expression {
    ghost place = { expression_in };

    fn resolve<N: Nested>(
        &mut self,
        nested: &N,
        scopes: &Scopes<'_>,
        functions: &mut FunctionList,
    ) -> Result<(), Memory> {
        nested.expression(scopes, functions, self)
    }
}

impl Part for ExpressionNode {
    ghost place = { expression_node_in };

    fn resolve<N: Nested>(
        &mut self,
        nested: &N,
        scopes: &Scopes<'_>,
        functions: &mut FunctionList,
    ) -> Result<(), Memory> {
        match self {
            ExpressionNode::Number(_) => Ok(()),
            ExpressionNode::Text(_) => Ok(()),
            ExpressionNode::Pattern(_) => Ok(()),
            ExpressionNode::True => Ok(()),
            ExpressionNode::False => Ok(()),
            ExpressionNode::Null => Ok(()),
            ExpressionNode::This => Ok(()),
            ExpressionNode::Name(x) => bind(scopes, x),
            ExpressionNode::Array(all) => all.resolve(nested, scopes, functions),
            ExpressionNode::Object(all) => all.resolve(nested, scopes, functions),
            ExpressionNode::Function(part) => part.resolve(nested, scopes, functions),
            ExpressionNode::Suffixed(first, all) => both(nested, scopes, functions, first, all),
            ExpressionNode::New(callee, all) => both(nested, scopes, functions, callee, all),
            ExpressionNode::Update(_, _, target) => target.resolve(nested, scopes, functions),
            ExpressionNode::Unary(_, operand) => operand.resolve(nested, scopes, functions),
            ExpressionNode::Chain(first, all) => both(nested, scopes, functions, first, all),
            ExpressionNode::Conditional(condition, a, b) => {
                condition.resolve(nested, scopes, functions)?;
                both(nested, scopes, functions, a, b)
            }
            ExpressionNode::Assign(target, _, value) => both(
                nested, scopes, functions, target, value,
            ),
            ExpressionNode::Comma(all) => all.resolve(nested, scopes, functions),
        }
    }
}

impl Part for Property {
    ghost place = { property_in };

    fn resolve<N: Nested>(
        &mut self,
        nested: &N,
        scopes: &Scopes<'_>,
        functions: &mut FunctionList,
    ) -> Result<(), Memory> {
        self.value.resolve(nested, scopes, functions)
    }
}

impl Part for Suffix {
    ghost place = { suffix_part_in };

    fn resolve<N: Nested>(
        &mut self,
        nested: &N,
        scopes: &Scopes<'_>,
        functions: &mut FunctionList,
    ) -> Result<(), Memory> {
        self.node.resolve(nested, scopes, functions)
    }
}

impl Part for SuffixNode {
    ghost place = { suffix_node_in };

    fn resolve<N: Nested>(
        &mut self,
        nested: &N,
        scopes: &Scopes<'_>,
        functions: &mut FunctionList,
    ) -> Result<(), Memory> {
        match self {
            SuffixNode::Member(_) => Ok(()),
            SuffixNode::Index(e) => e.resolve(nested, scopes, functions),
            SuffixNode::Call(all) => all.resolve(nested, scopes, functions),
        }
    }
}

impl Part for Operand {
    ghost place = { operand_in };

    fn resolve<N: Nested>(
        &mut self,
        nested: &N,
        scopes: &Scopes<'_>,
        functions: &mut FunctionList,
    ) -> Result<(), Memory> {
        self.value.resolve(nested, scopes, functions)
    }
}
