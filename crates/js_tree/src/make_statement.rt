// Statements whose parts are boxed, from their parts.
ghost use Rattle.std.specs.Prelude.{◌≡◌, IfOk};
ghost use Rattle.js_tree.specs.Tree.{
  Evaluate,
  If,
  DoWhile,
  While,
  For,
  ForIn,
  Return,
  Throw,
  Switch,
  Try,
  Declare,
  optional_of,
};
ghost use Rattle.js_tree.specs.View.{function_of, branches_of, clauses_of, target_of};
ghost use Rattle.js_tree.specs.Parts.{statement_or_none, start_or_none, catch_or_none};

use crate::make::{boxed, boxed_if};
use crate::{
    BoundName, BranchList, Catch, ClauseList, Expression, ForStart, ForTarget, Function,
    FunctionPart, Place, Statement, StatementNode,
};
use std::alloc::Global;
use utf16_text::Memory;

#[tactic(auto, using(crate::proofs::Boxes::expression_box, crate::proofs::Boxes::statement_box, crate::proofs::Boxes::start_box, crate::proofs::Boxes::catch_box))]
impl Statement {
    /// An expression that is evaluated (ECMA-262 5.1, section 12.4).
    pub fn expression(alloc: Global, place: Place, value: Expression) -> Result<Statement, Memory>
        ensures { IfOk result (λ s. s ≡ Evaluate place value) }
    {
        let node = StatementNode::Expression(boxed(alloc, value)?);
        Ok(Statement { place, node })
    }

    /// `if` with its branches, and the one behind the last `else` (ECMA-262 5.1, section 12.5).
    pub fn if_else(
        alloc: Global,
        place: Place,
        branches: BranchList,
        last: Option<Statement>,
    ) -> Result<Statement, Memory>
        ensures { IfOk result (λ s. s ≡ If place (branches_of branches) (statement_or_none last)) }
    {
        let node = StatementNode::If(branches, boxed_if(alloc, last)?);
        Ok(Statement { place, node })
    }

    /// A `do` loop (ECMA-262 5.1, section 12.6.1).
    pub fn do_while(
        alloc: Global,
        place: Place,
        body: Statement,
        condition: Expression,
    ) -> Result<Statement, Memory>
        ensures { IfOk result (λ s. s ≡ DoWhile place body condition) }
    {
        let body = boxed(alloc, body)?;
        let condition = boxed(alloc, condition)?;
        let node = StatementNode::DoWhile(body, condition);
        Ok(Statement { place, node })
    }

    /// A `while` loop (ECMA-262 5.1, section 12.6.2).
    pub fn while_loop(
        alloc: Global,
        place: Place,
        condition: Expression,
        body: Statement,
    ) -> Result<Statement, Memory>
        ensures { IfOk result (λ s. s ≡ While place condition body) }
    {
        let condition = boxed(alloc, condition)?;
        let body = boxed(alloc, body)?;
        let node = StatementNode::While(condition, body);
        Ok(Statement { place, node })
    }

    /// A `for` loop (ECMA-262 5.1, section 12.6.3).
    pub fn for_loop(
        alloc: Global,
        place: Place,
        start: Option<ForStart>,
        condition: Option<Expression>,
        step: Option<Expression>,
        body: Statement,
    ) -> Result<Statement, Memory>
        ensures { IfOk result (λ s. s ≡ For place (start_or_none start) (optional_of condition) (optional_of step) body) }
    {
        let start = boxed_if(alloc, start)?;
        let condition = boxed_if(alloc, condition)?;
        let step = boxed_if(alloc, step)?;
        let body = boxed(alloc, body)?;
        let node = StatementNode::For(start, condition, step, body);
        Ok(Statement { place, node })
    }

    /// A `for`-`in` loop (ECMA-262 5.1, section 12.6.4).
    pub fn for_in(
        alloc: Global,
        place: Place,
        target: ForTarget,
        object: Expression,
        body: Statement,
    ) -> Result<Statement, Memory>
        ensures { IfOk result (λ s. s ≡ ForIn place (target_of target) object body) }
    {
        let target = boxed(alloc, target)?;
        let object = boxed(alloc, object)?;
        let body = boxed(alloc, body)?;
        let node = StatementNode::ForIn(target, object, body);
        Ok(Statement { place, node })
    }

    /// `return` (ECMA-262 5.1, section 12.9).
    pub fn return_value(
        alloc: Global,
        place: Place,
        value: Option<Expression>,
    ) -> Result<Statement, Memory>
        ensures { IfOk result (λ s. s ≡ Return place (optional_of value)) }
    {
        let node = StatementNode::Return(boxed_if(alloc, value)?);
        Ok(Statement { place, node })
    }

    /// `throw` (ECMA-262 5.1, section 12.13).
    pub fn throw(alloc: Global, place: Place, value: Expression) -> Result<Statement, Memory>
        ensures { IfOk result (λ s. s ≡ Throw place value) }
    {
        let node = StatementNode::Throw(boxed(alloc, value)?);
        Ok(Statement { place, node })
    }

    /// `switch` (ECMA-262 5.1, section 12.11).
    pub fn switch(
        alloc: Global,
        place: Place,
        value: Expression,
        clauses: ClauseList,
    ) -> Result<Statement, Memory>
        ensures { IfOk result (λ s. s ≡ Switch place value (clauses_of clauses)) }
    {
        let node = StatementNode::Switch(boxed(alloc, value)?, clauses);
        Ok(Statement { place, node })
    }

    /// `try` with its block, its handler and its last block (ECMA-262 5.1, section 12.14).
    pub fn try_block(
        alloc: Global,
        place: Place,
        block: Statement,
        catch: Option<Catch>,
        last: Option<Statement>,
    ) -> Result<Statement, Memory>
        ensures { IfOk result (λ s. s ≡ Try place block (catch_or_none catch) (statement_or_none last)) }
    {
        let block = boxed(alloc, block)?;
        let catch = boxed_if(alloc, catch)?;
        let last = boxed_if(alloc, last)?;
        let node = StatementNode::Try(block, catch, last);
        Ok(Statement { place, node })
    }

    /// A function declaration (ECMA-262 5.1, section 13).
    pub fn function(
        alloc: Global,
        place: Place,
        name: BoundName,
        function: Function,
    ) -> Result<Statement, Memory>
        ensures { IfOk result (λ s. s ≡ Declare place name (function_of function)) }
    {
        let function = FunctionPart::Whole(boxed(alloc, function)?);
        let node = StatementNode::Function(name, function);
        Ok(Statement { place, node })
    }
}
