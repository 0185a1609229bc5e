// Expressions whose parts are boxed, from their parts.
ghost use Rattle.std.specs.Prelude.{◌≡◌, IfOk};
ghost use Rattle.js_tree.specs.Tree.{
  New,
  Function as FunctionExpression,
  Suffixed,
  Update,
  Unary,
  Chain,
  Conditional,
  Assign,
  expressions_of,
};
ghost use Rattle.js_tree.specs.View.{function_of, suffixes_of, operands_of};

use crate::make::boxed;
use crate::{
    AssignOp, Expression, ExpressionList, ExpressionNode, Function, FunctionPart, OperandList,
    Place, SuffixList, UnaryOp, UpdateForm, UpdateOp,
};
use std::alloc::Global;
use utf16_text::Memory;

impl Expression {
    /// A function expression (ECMA-262 5.1, section 13).
    pub fn function(alloc: Global, place: Place, function: Function) -> Result<Expression, Memory>
        ensures { IfOk result (λ e. e ≡ FunctionExpression place (function_of function)) }
    {
        let node = ExpressionNode::Function(FunctionPart::Whole(boxed(alloc, function)?));
        Ok(Expression { place, node })
    }

    /// An expression and what follows it (ECMA-262 5.1, section 11.2).
    pub fn suffixed(
        alloc: Global,
        place: Place,
        first: Expression,
        suffixes: SuffixList,
    ) -> Result<Expression, Memory>
        ensures { IfOk result (λ e. e ≡ Suffixed place first (suffixes_of suffixes)) }
    {
        let node = ExpressionNode::Suffixed(boxed(alloc, first)?, suffixes);
        Ok(Expression { place, node })
    }

    /// `new` with its arguments (ECMA-262 5.1, section 11.2.2).
    pub fn construction(
        alloc: Global,
        place: Place,
        callee: Expression,
        arguments: ExpressionList,
    ) -> Result<Expression, Memory>
        ensures { IfOk result (λ e. e ≡ New place callee (expressions_of arguments)) }
    {
        let node = ExpressionNode::New(boxed(alloc, callee)?, arguments);
        Ok(Expression { place, node })
    }

    /// `++` or `--` with its target (ECMA-262 5.1, sections 11.3 and 11.4).
    pub fn update(
        alloc: Global,
        place: Place,
        form: UpdateForm,
        op: UpdateOp,
        target: Expression,
    ) -> Result<Expression, Memory>
        ensures { IfOk result (λ e. e ≡ Update place form op target) }
    {
        let node = ExpressionNode::Update(form, op, boxed(alloc, target)?);
        Ok(Expression { place, node })
    }

    /// A prefix operator with its operand (ECMA-262 5.1, section 11.4).
    pub fn unary(
        alloc: Global,
        place: Place,
        op: UnaryOp,
        operand: Expression,
    ) -> Result<Expression, Memory>
        ensures { IfOk result (λ e. e ≡ Unary place op operand) }
    {
        let node = ExpressionNode::Unary(op, boxed(alloc, operand)?);
        Ok(Expression { place, node })
    }

    /// A row of operators of one binary level (ECMA-262 5.1, sections 11.5 to 11.11).
    pub fn chain(
        alloc: Global,
        place: Place,
        first: Expression,
        operands: OperandList,
    ) -> Result<Expression, Memory>
        ensures { IfOk result (λ e. e ≡ Chain place first (operands_of operands)) }
    {
        let node = ExpressionNode::Chain(boxed(alloc, first)?, operands);
        Ok(Expression { place, node })
    }

    /// The conditional operator (ECMA-262 5.1, section 11.12).
    pub fn conditional(
        alloc: Global,
        place: Place,
        condition: Expression,
        where_true: Expression,
        where_false: Expression,
    ) -> Result<Expression, Memory>
        ensures { IfOk result (λ e. e ≡ Conditional place condition where_true where_false) }
    {
        let condition = boxed(alloc, condition)?;
        let where_true = boxed(alloc, where_true)?;
        let where_false = boxed(alloc, where_false)?;
        let node = ExpressionNode::Conditional(condition, where_true, where_false);
        Ok(Expression { place, node })
    }

    /// An assignment (ECMA-262 5.1, section 11.13).
    pub fn assignment(
        alloc: Global,
        place: Place,
        target: Expression,
        op: AssignOp,
        value: Expression,
    ) -> Result<Expression, Memory>
        ensures { IfOk result (λ e. e ≡ Assign place target op value) }
    {
        let target = boxed(alloc, target)?;
        let value = boxed(alloc, value)?;
        let node = ExpressionNode::Assign(target, op, value);
        Ok(Expression { place, node })
    }
}
