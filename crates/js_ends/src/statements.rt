// The ways in which statements may end.
ghost use Rattle.std.specs.Prelude.{◌≡◌};
ghost use Rattle.js_tree.specs.Tree.{statements_of};
ghost use Rattle.js_tree.specs.View.{branches_of, clauses_of, optional_box, optional_statement, optional_catch};
ghost use Rattle.js_ends.specs.Ways as ways;
ghost use Rattle.js_ends.specs.Ends as spec;

use crate::Ends;
use js_tree::{
    Branch, Catch, Clause, Expression, ExpressionNode, FunctionPart, Statement, StatementNode,
};

/// The ways in which a row of statements may end, as those of a function's body: each that their form doesn't rule out.
#[cycle(ends_of)]
pub fn ends_of(body: &[Statement]) -> Ends
    ensures { result ≡ spec.ends_of_statements (statements_of body.now) }
{
    let mut left = body;
    let mut ends = Ends::completion();
    while let [one, rest @ ..] = left {
        ends = ends.followed_by(of_statement(one));
        left = rest;
    }
    ends
}

#[cycle(ends_of)]
fn of_statement(s: &Statement) -> Ends
    ensures { result ≡ spec.ends_of_statement s.now }
{
    match &s.node {
        StatementNode::Block(all) => ends_of(all.as_slice()),
        StatementNode::Empty => Ends::completion(),
        StatementNode::Expression(_) => Ends::completion(),
        StatementNode::Debugger => Ends::completion(),
        StatementNode::Var(_) => Ends::completion(),
        StatementNode::If(all, last) => of_branches(all.as_slice()).either(of_otherwise(last)),
        StatementNode::DoWhile(body, condition) => of_do(of_statement(body), condition),
        StatementNode::While(condition, body) => of_statement(body).repeated(!always_holds(
            condition,
        )),
        StatementNode::For(_, condition, _, body) => of_statement(body).repeated(!always_goes_on(
            condition,
        )),
        StatementNode::ForIn(_, _, body) => of_statement(body).repeated(true),
        StatementNode::Continue => Ends::continuing(),
        StatementNode::Break => Ends::breaking(),
        StatementNode::Return(value) => of_return(value),
        StatementNode::Throw(_) => Ends::none(),
        StatementNode::Switch(_, all) => of_clauses(all.as_slice())
            .either(of_no_match(all.as_slice()))
            .switched(),
        StatementNode::Try(block, catch, last) => {
            of_otherwise(last).followed_by(of_statement(block).either(of_catch(catch)))
        }
        StatementNode::Function(_, FunctionPart::Whole(_)) => Ends::completion(),
        StatementNode::Function(_, FunctionPart::Numbered(_)) => Ends::completion(),
    }
}

#[cycle(ends_of)]
fn of_otherwise(o: &Option<Box<Statement>>) -> Ends
    ensures { result ≡ spec.ends_of_otherwise (optional_statement o.now) }
{
    match o {
        None => Ends::completion(),
        Some(s) => of_statement(s),
    }
}

#[cycle(ends_of)]
fn of_branches(all: &[Branch]) -> Ends
    ensures { result ≡ spec.ends_of_branches (branches_of all.now) }
{
    let mut left = all;
    let mut ends = Ends::none();
    while let [one, rest @ ..] = left {
        ends = ends.either(of_statement(&one.body));
        left = rest;
    }
    ends
}

#[cycle(ends_of)]
fn of_clauses(all: &[Clause]) -> Ends
    ensures { result ≡ spec.ends_of_clauses ways.completion (clauses_of all.now) }
{
    let mut left = all;
    let mut ends = Ends::completion();
    while let [one, rest @ ..] = left {
        ends = ends.into_next(ends_of(one.body.as_slice()));
        left = rest;
    }
    ends
}

#[cycle(ends_of)]
fn of_catch(o: &Option<Box<Catch>>) -> Ends
    ensures { result ≡ spec.ends_of_handler (optional_catch o.now) }
{
    match o {
        None => Ends::none(),
        Some(catch) => of_statement(&catch.body),
    }
}

fn of_do(body: Ends, condition: &Expression) -> Ends
    ensures { result ≡ spec.ends_of_do body (spec.always_holds condition.now) }
{
    let tested = body.completes || body.continues;
    body.repeated(!always_holds(condition) && tested)
}

fn of_no_match(all: &[Clause]) -> Ends
    ensures { result ≡ spec.ends_of_no_match (clauses_of all.now) }
{
    if has_default(all) {
        Ends::none()
    } else {
        Ends::completion()
    }
}

fn of_return(value: &Option<Box<Expression>>) -> Ends
    ensures { result ≡ spec.ends_of_return (optional_box value.now) }
{
    match value {
        None => Ends::returning(false),
        Some(_) => Ends::returning(true),
    }
}

fn has_default(all: &[Clause]) -> bool
    ensures { result ≡ spec.has_default (clauses_of all.now) }
{
    let mut left = all;
    while let [one, rest @ ..] = left {
        if one.test.is_none() {
            return true;
        }
        left = rest;
    }
    false
}

fn always_goes_on(o: &Option<Box<Expression>>) -> bool
    ensures { result ≡ spec.always_goes_on (optional_box o.now) }
{
    match o {
        None => true,
        Some(e) => always_holds(e),
    }
}

fn always_holds(e: &Expression) -> bool
    ensures { result ≡ spec.always_holds e.now }
{
    match &e.node {
        ExpressionNode::True => true,
        ExpressionNode::Number(n) => n.get() != 0,
        ExpressionNode::Text(_) => false,
        ExpressionNode::Pattern(_) => false,
        ExpressionNode::False => false,
        ExpressionNode::Null => false,
        ExpressionNode::This => false,
        ExpressionNode::Name(_) => false,
        ExpressionNode::Array(_) => false,
        ExpressionNode::Object(_) => false,
        ExpressionNode::Function(FunctionPart::Whole(_)) => false,
        ExpressionNode::Function(FunctionPart::Numbered(_)) => false,
        ExpressionNode::Suffixed(_, _) => false,
        ExpressionNode::New(_, _) => false,
        ExpressionNode::Update(_, _, _) => false,
        ExpressionNode::Unary(_, _) => false,
        ExpressionNode::Chain(_, _) => false,
        ExpressionNode::Conditional(_, _, _) => false,
        ExpressionNode::Assign(_, _, _) => false,
        ExpressionNode::Comma(_) => false,
    }
}
