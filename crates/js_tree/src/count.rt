// The size of trees, counted up to a limit.
ghost use Rattle.std.specs.Prelude.{◌≡◌, ◌+◌, ◌≤◌, min, length};
ghost use Rattle.js_tree.specs.Size.{
  expression_size,
  optional_expression_size,
  expressions_size,
  items_size,
  properties_size,
  suffix_size,
  suffixes_size,
  operands_size,
  function_size,
  statement_size,
  optional_statement_size,
  statements_size,
  declarations_size,
  branches_size,
  start_size,
  target_size,
  clauses_size,
  catch_size,
};
ghost use Rattle.js_tree.specs.Tree.{optional_of, expressions_of, items_of, statements_of};
ghost use Rattle.js_tree.specs.View.{
  properties_of,
  suffix_of,
  suffixes_of,
  operands_of,
  function_of,
  declarations_of,
  branches_of,
  clauses_of,
  optional_box,
  optional_statement,
  start_of,
  optional_start,
  target_of,
  optional_catch,
};

use crate::{
    Branch, Catch, Clause, Declared, Expression, ExpressionNode, ForStart, ForTarget, Function,
    FunctionPart, Operand, Property, Statement, StatementNode, Suffix, SuffixNode,
};

/// No count goes past this.
pub const LIMIT: u64 = 4294967296;

/// So much more than a count, or the limit.
fn more(count: u64, by: u64) -> u64
    requires count { count ≤ LIMIT }
    requires by { by ≤ LIMIT }
    ensures { result ≡ min (count + by) LIMIT }
{
    (count + by).min(LIMIT)
}

/// The number of these names, or the limit.
fn number<T>(names: &[T]) -> u64
    ensures { result ≡ min (length names.now) LIMIT }
{
    (names.len() as u64).min(LIMIT)
}

#[cycle(count)]
pub fn count_expression(e: &Expression, n: u64) -> u64
    requires { n ≤ LIMIT }
    ensures { result ≡ min (n + expression_size e.now) LIMIT }
{
    match &e.node {
        ExpressionNode::Number(_) => more(n, 1),
        ExpressionNode::Text(_) => more(n, 1),
        ExpressionNode::Pattern(_) => more(n, 1),
        ExpressionNode::True => more(n, 1),
        ExpressionNode::False => more(n, 1),
        ExpressionNode::Null => more(n, 1),
        ExpressionNode::This => more(n, 1),
        ExpressionNode::Name(_) => more(n, 2),
        ExpressionNode::Array(all) => count_items(all.as_slice(), more(n, 1)),
        ExpressionNode::Object(all) => count_properties(all.as_slice(), more(n, 1)),
        ExpressionNode::Function(FunctionPart::Whole(f)) => count_function(f, more(n, 1)),
        ExpressionNode::Function(FunctionPart::Numbered(_)) => more(n, 1),
        ExpressionNode::Suffixed(first, all) => {
            count_suffixes(all.as_slice(), count_expression(first, more(n, 1)))
        }
        ExpressionNode::New(callee, all) => {
            count_expressions(all.as_slice(), count_expression(callee, more(n, 1)))
        }
        ExpressionNode::Update(_, _, target) => count_expression(target, more(n, 1)),
        ExpressionNode::Unary(_, operand) => count_expression(operand, more(n, 1)),
        ExpressionNode::Chain(first, all) => {
            count_operands(all.as_slice(), count_expression(first, more(n, 1)))
        }
        ExpressionNode::Conditional(condition, a, b) => count_expression(
            b,
            count_expression(a, count_expression(condition, more(n, 1))),
        ),
        ExpressionNode::Assign(target, _, value) => {
            count_expression(value, count_expression(target, more(n, 1)))
        }
        ExpressionNode::Comma(all) => count_expressions(all.as_slice(), more(n, 1)),
    }
}

#[cycle(count)]
fn count_optional(o: &Option<Expression>, n: u64) -> u64
    requires { n ≤ LIMIT }
    ensures { result ≡ min (n + optional_expression_size (optional_of o.now)) LIMIT }
{
    match o {
        None => more(n, 1),
        Some(e) => count_expression(e, more(n, 1)),
    }
}

#[cycle(count)]
fn count_boxed(o: &Option<Box<Expression>>, n: u64) -> u64
    requires { n ≤ LIMIT }
    ensures { result ≡ min (n + optional_expression_size (optional_box o.now)) LIMIT }
{
    match o {
        None => more(n, 1),
        Some(e) => count_expression(e, more(n, 1)),
    }
}

#[cycle(count)]
fn count_expressions(all: &[Expression], n: u64) -> u64
    requires { n ≤ LIMIT }
    ensures { result ≡ min (n + expressions_size (expressions_of all.now)) LIMIT }
{
    let mut left = all;
    let mut count = n;
    while let [one, rest @ ..] = left {
        count = count_expression(one, more(count, 1));
        left = rest;
    }
    more(count, 1)
}

#[cycle(count)]
fn count_items(all: &[Option<Expression>], n: u64) -> u64
    requires { n ≤ LIMIT }
    ensures { result ≡ min (n + items_size (items_of all.now)) LIMIT }
{
    let mut left = all;
    let mut count = n;
    while let [one, rest @ ..] = left {
        count = count_optional(one, more(count, 1));
        left = rest;
    }
    more(count, 1)
}

#[cycle(count)]
fn count_properties(all: &[Property], n: u64) -> u64
    requires { n ≤ LIMIT }
    ensures { result ≡ min (n + properties_size (properties_of all.now)) LIMIT }
{
    let mut left = all;
    let mut count = n;
    while let [one, rest @ ..] = left {
        count = count_expression(&one.value, more(count, 1));
        left = rest;
    }
    more(count, 1)
}

#[cycle(count)]
fn count_suffix(one: &Suffix, n: u64) -> u64
    requires { n ≤ LIMIT }
    ensures { result ≡ min (n + suffix_size (suffix_of one.now.place one.now.node)) LIMIT }
{
    match &one.node {
        SuffixNode::Member(_) => more(n, 1),
        SuffixNode::Index(e) => count_expression(e, more(n, 1)),
        SuffixNode::Call(all) => count_expressions(all.as_slice(), more(n, 1)),
    }
}

#[cycle(count)]
fn count_suffixes(all: &[Suffix], n: u64) -> u64
    requires { n ≤ LIMIT }
    ensures { result ≡ min (n + suffixes_size (suffixes_of all.now)) LIMIT }
{
    let mut left = all;
    let mut count = n;
    while let [one, rest @ ..] = left {
        count = count_suffix(one, more(count, 1));
        left = rest;
    }
    more(count, 1)
}

#[cycle(count)]
fn count_operands(all: &[Operand], n: u64) -> u64
    requires { n ≤ LIMIT }
    ensures { result ≡ min (n + operands_size (operands_of all.now)) LIMIT }
{
    let mut left = all;
    let mut count = n;
    while let [one, rest @ ..] = left {
        count = count_expression(&one.value, more(count, 1));
        left = rest;
    }
    more(count, 1)
}

#[cycle(count)]
fn count_function(f: &Function, n: u64) -> u64
    requires { n ≤ LIMIT }
    ensures { result ≡ min (n + function_size (function_of f.now)) LIMIT }
{
    let parameters = more(more(n, 2), number(f.parameters.as_slice()));
    let names = more(parameters, number(f.names.as_slice()));
    count_statements(f.body.as_slice(), names)
}

#[cycle(count)]
fn count_statement(s: &Statement, n: u64) -> u64
    requires { n ≤ LIMIT }
    ensures { result ≡ min (n + statement_size s.now) LIMIT }
{
    match &s.node {
        StatementNode::Block(all) => count_statements(all.as_slice(), more(n, 1)),
        StatementNode::Empty => more(n, 1),
        StatementNode::Expression(e) => count_expression(e, more(n, 1)),
        StatementNode::Debugger => more(n, 1),
        StatementNode::Var(all) => count_declared(all.as_slice(), more(n, 1)),
        StatementNode::If(all, otherwise) => {
            count_otherwise(otherwise, count_branches(all.as_slice(), more(n, 1)))
        }
        StatementNode::DoWhile(body, condition) => {
            count_expression(condition, count_statement(body, more(n, 1)))
        }
        StatementNode::While(condition, body) => {
            count_statement(body, count_expression(condition, more(n, 1)))
        }
        StatementNode::For(start, condition, step, body) => count_statement(
            body,
            count_boxed(step, count_boxed(condition, count_start(start, more(n, 1)))),
        ),
        StatementNode::ForIn(target, object, body) => count_statement(
            body,
            count_expression(object, count_target(target, more(n, 1))),
        ),
        StatementNode::Continue => more(n, 1),
        StatementNode::Break => more(n, 1),
        StatementNode::Return(e) => count_boxed(e, more(n, 1)),
        StatementNode::Throw(e) => count_expression(e, more(n, 1)),
        StatementNode::Switch(e, all) => {
            count_clauses(all.as_slice(), count_expression(e, more(n, 1)))
        }
        StatementNode::Try(block, catch, last) => count_otherwise(
            last,
            count_catch(catch, count_statement(block, more(n, 1))),
        ),
        StatementNode::Function(_, FunctionPart::Whole(f)) => count_function(f, more(n, 2)),
        StatementNode::Function(_, FunctionPart::Numbered(_)) => more(n, 2),
    }
}

#[cycle(count)]
fn count_otherwise(o: &Option<Box<Statement>>, n: u64) -> u64
    requires { n ≤ LIMIT }
    ensures { result ≡ min (n + optional_statement_size (optional_statement o.now)) LIMIT }
{
    match o {
        None => more(n, 1),
        Some(s) => count_statement(s, more(n, 1)),
    }
}

#[cycle(count)]
pub fn count_statements(all: &[Statement], n: u64) -> u64
    requires { n ≤ LIMIT }
    ensures { result ≡ min (n + statements_size (statements_of all.now)) LIMIT }
{
    let mut left = all;
    let mut count = n;
    while let [one, rest @ ..] = left {
        count = count_statement(one, more(count, 1));
        left = rest;
    }
    more(count, 1)
}

#[cycle(count)]
fn count_declared(all: &[Declared], n: u64) -> u64
    requires { n ≤ LIMIT }
    ensures { result ≡ min (n + declarations_size (declarations_of all.now)) LIMIT }
{
    let mut left = all;
    let mut count = n;
    while let [one, rest @ ..] = left {
        count = count_optional(&one.value, more(count, 2));
        left = rest;
    }
    more(count, 1)
}

#[cycle(count)]
fn count_branches(all: &[Branch], n: u64) -> u64
    requires { n ≤ LIMIT }
    ensures { result ≡ min (n + branches_size (branches_of all.now)) LIMIT }
{
    let mut left = all;
    let mut count = n;
    while let [one, rest @ ..] = left {
        count = count_statement(&one.body, count_expression(&one.condition, more(count, 1)));
        left = rest;
    }
    more(count, 1)
}

#[cycle(count)]
fn count_clauses(all: &[Clause], n: u64) -> u64
    requires { n ≤ LIMIT }
    ensures { result ≡ min (n + clauses_size (clauses_of all.now)) LIMIT }
{
    let mut left = all;
    let mut count = n;
    while let [one, rest @ ..] = left {
        count = count_statements(
            one.body.as_slice(),
            count_optional(&one.test, more(count, 1)),
        );
        left = rest;
    }
    more(count, 1)
}

#[cycle(count)]
fn count_start(o: &Option<Box<ForStart>>, n: u64) -> u64
    requires { n ≤ LIMIT }
    ensures { result ≡ min (n + start_size (optional_start o.now)) LIMIT }
{
    match o {
        None => more(n, 1),
        Some(start) => count_some_start(start, n),
    }
}

#[cycle(count)]
fn count_some_start(start: &ForStart, n: u64) -> u64
    requires { n ≤ LIMIT }
    ensures { result ≡ min (n + start_size (start_of start.now)) LIMIT }
{
    match start {
        ForStart::Var(_, all) => count_declared(all.as_slice(), more(n, 1)),
        ForStart::Expression(e) => count_expression(e, more(n, 1)),
    }
}

#[cycle(count)]
fn count_target(target: &ForTarget, n: u64) -> u64
    requires { n ≤ LIMIT }
    ensures { result ≡ min (n + target_size (target_of target.now)) LIMIT }
{
    match target {
        ForTarget::Expression(e) => count_expression(e, more(n, 1)),
        ForTarget::Declared(d) => count_optional(&d.value, more(n, 2)),
    }
}

#[cycle(count)]
fn count_catch(o: &Option<Box<Catch>>, n: u64) -> u64
    requires { n ≤ LIMIT }
    ensures { result ≡ min (n + catch_size (optional_catch o.now)) LIMIT }
{
    match o {
        None => more(n, 1),
        Some(catch) => count_statement(&catch.body, more(n, 2)),
    }
}
