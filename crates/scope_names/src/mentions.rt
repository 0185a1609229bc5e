// Whether a name is read or written outside inner functions.
ghost use Rattle.std.specs.Prelude.{◌≡◌};
ghost use Rattle.std.specs.Str.{bytes_eq};
ghost use Rattle.js_tree.specs.Tree.{optional_of, expressions_of, items_of, statements_of};
ghost use Rattle.js_tree.specs.View.{properties_of, suffix_of, suffixes_of, operands_of, declarations_of};
ghost use Rattle.js_tree.specs.View.{branches_of, clauses_of, optional_box, optional_statement, start_of};
ghost use Rattle.js_tree.specs.View.{optional_start, target_of, optional_catch};
ghost use Rattle.js_binding.specs.Names as spec;

use js_tree::{
    Branch, Catch, Clause, Declared, Expression, ExpressionNode, ForStart, ForTarget, FunctionPart,
    Operand, Property, Statement, StatementNode, Suffix, SuffixNode,
};
use utf16_text::Text;

fn same(x: &Text, y: &Text) -> bool
    ensures { result ≡ bytes_eq x.now y.now }
{
    x == y
}

#[cycle(mentions)]
fn mentions(x: &Text, e: &Expression) -> bool
    ensures { result ≡ spec.mentions x.now e.now }
{
    match &e.node {
        ExpressionNode::Number(_) => false,
        ExpressionNode::Text(_) => false,
        ExpressionNode::Pattern(_) => false,
        ExpressionNode::True => false,
        ExpressionNode::False => false,
        ExpressionNode::Null => false,
        ExpressionNode::This => false,
        ExpressionNode::Name(y) => same(x, &y.name),
        ExpressionNode::Array(all) => in_items(x, all.as_slice()),
        ExpressionNode::Object(all) => in_properties(x, all.as_slice()),
        ExpressionNode::Function(FunctionPart::Whole(_)) => false,
        ExpressionNode::Function(FunctionPart::Numbered(_)) => false,
        ExpressionNode::Suffixed(first, all) => mentions(x, first)
            || in_suffixes(x, all.as_slice()),
        ExpressionNode::New(callee, all) => mentions(x, callee)
            || in_expressions(x, all.as_slice()),
        ExpressionNode::Update(_, _, target) => mentions(x, target),
        ExpressionNode::Unary(_, operand) => mentions(x, operand),
        ExpressionNode::Chain(first, all) => mentions(x, first) || in_operands(x, all.as_slice()),
        ExpressionNode::Conditional(condition, a, b) => {
            mentions(x, condition) || mentions(x, a) || mentions(x, b)
        }
        ExpressionNode::Assign(target, _, value) => mentions(x, target) || mentions(x, value),
        ExpressionNode::Comma(all) => in_expressions(x, all.as_slice()),
    }
}

#[cycle(mentions)]
fn in_optional(x: &Text, o: &Option<Expression>) -> bool
    ensures { result ≡ spec.mentions_in_optional x.now (optional_of o.now) }
{
    match o {
        None => false,
        Some(e) => mentions(x, e),
    }
}

fn in_boxed(x: &Text, o: &Option<Box<Expression>>) -> bool
    ensures { result ≡ spec.mentions_in_optional x.now (optional_box o.now) }
{
    match o {
        None => false,
        Some(e) => mentions(x, e),
    }
}

#[cycle(mentions)]
fn in_expressions(x: &Text, all: &[Expression]) -> bool
    ensures { result ≡ spec.mentions_in_expressions x.now (expressions_of all.now) }
{
    let mut left = all;
    while let [one, rest @ ..] = left {
        if mentions(x, one) {
            return true;
        }
        left = rest;
    }
    false
}

#[cycle(mentions)]
fn in_items(x: &Text, all: &[Option<Expression>]) -> bool
    ensures { result ≡ spec.mentions_in_items x.now (items_of all.now) }
{
    let mut left = all;
    while let [one, rest @ ..] = left {
        if in_optional(x, one) {
            return true;
        }
        left = rest;
    }
    false
}

#[cycle(mentions)]
fn in_properties(x: &Text, all: &[Property]) -> bool
    ensures { result ≡ spec.mentions_in_properties x.now (properties_of all.now) }
{
    let mut left = all;
    while let [one, rest @ ..] = left {
        if mentions(x, &one.value) {
            return true;
        }
        left = rest;
    }
    false
}

#[cycle(mentions)]
fn in_suffix(x: &Text, one: &Suffix) -> bool
    ensures { result ≡ spec.mentions_in_suffix x.now (suffix_of one.now.place one.now.node) }
{
    match &one.node {
        SuffixNode::Member(_) => false,
        SuffixNode::Index(e) => mentions(x, e),
        SuffixNode::Call(all) => in_expressions(x, all.as_slice()),
    }
}

#[cycle(mentions)]
fn in_suffixes(x: &Text, all: &[Suffix]) -> bool
    ensures { result ≡ spec.mentions_in_suffixes x.now (suffixes_of all.now) }
{
    let mut left = all;
    while let [one, rest @ ..] = left {
        if in_suffix(x, one) {
            return true;
        }
        left = rest;
    }
    false
}

#[cycle(mentions)]
fn in_operands(x: &Text, all: &[Operand]) -> bool
    ensures { result ≡ spec.mentions_in_operands x.now (operands_of all.now) }
{
    let mut left = all;
    while let [one, rest @ ..] = left {
        if mentions(x, &one.value) {
            return true;
        }
        left = rest;
    }
    false
}

/// Whether a body mentions a name outside inner functions.
#[cycle(mentions_in_statements)]
pub fn mentions_in_body(x: &Text, all: &[Statement]) -> bool
    ensures { result ≡ spec.mentions_in_body x.now (statements_of all.now) }
{
    let mut left = all;
    while let [one, rest @ ..] = left {
        if in_statement(x, one) {
            return true;
        }
        left = rest;
    }
    false
}

#[cycle(mentions_in_statements)]
fn in_statement(x: &Text, s: &Statement) -> bool
    ensures { result ≡ spec.mentions_in x.now s.now }
{
    match &s.node {
        StatementNode::Block(all) => mentions_in_body(x, all.as_slice()),
        StatementNode::Empty => false,
        StatementNode::Expression(e) => mentions(x, e),
        StatementNode::Debugger => false,
        StatementNode::Var(all) => in_declared(x, all.as_slice()),
        StatementNode::If(all, otherwise) => {
            in_branches(x, all.as_slice()) || in_otherwise(x, otherwise)
        }
        StatementNode::DoWhile(body, condition) => in_statement(x, body) || mentions(x, condition),
        StatementNode::While(condition, body) => mentions(x, condition) || in_statement(x, body),
        StatementNode::For(start, condition, step, body) => {
            in_start(x, start)
                || in_boxed(x, condition)
                || in_boxed(x, step)
                || in_statement(x, body)
        }
        StatementNode::ForIn(target, object, body) => {
            in_target(x, target) || mentions(x, object) || in_statement(x, body)
        }
        StatementNode::Continue => false,
        StatementNode::Break => false,
        StatementNode::Return(e) => in_boxed(x, e),
        StatementNode::Throw(e) => mentions(x, e),
        StatementNode::Switch(e, all) => mentions(x, e) || in_clauses(x, all.as_slice()),
        StatementNode::Try(block, catch, last) => {
            in_statement(x, block) || in_catch(x, catch) || in_otherwise(x, last)
        }
        StatementNode::Function(_, FunctionPart::Whole(_)) => false,
        StatementNode::Function(_, FunctionPart::Numbered(_)) => false,
    }
}

#[cycle(mentions_in_statements)]
fn in_otherwise(x: &Text, o: &Option<Box<Statement>>) -> bool
    ensures { result ≡ spec.mentions_in_otherwise x.now (optional_statement o.now) }
{
    match o {
        None => false,
        Some(s) => in_statement(x, s),
    }
}

fn in_declared(x: &Text, all: &[Declared]) -> bool
    ensures { result ≡ spec.mentions_in_declarations x.now (declarations_of all.now) }
{
    let mut left = all;
    while let [one, rest @ ..] = left {
        if in_optional(x, &one.value) {
            return true;
        }
        left = rest;
    }
    false
}

#[cycle(mentions_in_statements)]
fn in_branches(x: &Text, all: &[Branch]) -> bool
    ensures { result ≡ spec.mentions_in_branches x.now (branches_of all.now) }
{
    let mut left = all;
    while let [one, rest @ ..] = left {
        if mentions(x, &one.condition) || in_statement(x, &one.body) {
            return true;
        }
        left = rest;
    }
    false
}

#[cycle(mentions_in_statements)]
fn in_clauses(x: &Text, all: &[Clause]) -> bool
    ensures { result ≡ spec.mentions_in_clauses x.now (clauses_of all.now) }
{
    let mut left = all;
    while let [one, rest @ ..] = left {
        if in_optional(x, &one.test) || mentions_in_body(x, one.body.as_slice()) {
            return true;
        }
        left = rest;
    }
    false
}

fn in_start(x: &Text, o: &Option<Box<ForStart>>) -> bool
    ensures { result ≡ spec.mentions_in_start x.now (optional_start o.now) }
{
    match o {
        None => false,
        Some(start) => in_some_start(x, start),
    }
}

fn in_some_start(x: &Text, start: &ForStart) -> bool
    ensures { result ≡ spec.mentions_in_start x.now (start_of start.now) }
{
    match start {
        ForStart::Var(_, all) => in_declared(x, all.as_slice()),
        ForStart::Expression(e) => mentions(x, e),
    }
}

fn in_target(x: &Text, target: &ForTarget) -> bool
    ensures { result ≡ spec.mentions_in_target x.now (target_of target.now) }
{
    match target {
        ForTarget::Expression(e) => mentions(x, e),
        ForTarget::Declared(d) => in_optional(x, &d.value),
    }
}

#[cycle(mentions_in_statements)]
fn in_catch(x: &Text, o: &Option<Box<Catch>>) -> bool
    ensures { result ≡ spec.mentions_in_handler x.now (optional_catch o.now) }
{
    match o {
        None => false,
        Some(catch) => in_statement(x, &catch.body),
    }
}
