// The sites of statements.
ghost use Rattle.std.specs.Prelude.{◌≡◌, ◌++◌, OnOk};
ghost use Rattle.std.specs.Option.{option_copied};
ghost use Rattle.js_tree.specs.Tree.{optional_of, statements_of};
ghost use Rattle.js_tree.specs.View.{declarations_of, branches_of, clauses_of, optional_statement, start_of};
ghost use Rattle.js_tree.specs.View.{optional_start, target_of, optional_catch};
ghost use Rattle.js_sites.specs.Sites as spec;

use crate::expressions::{add_boxed, add_expression, add_optional};
use crate::names::{add_written_name, leading_name};
use crate::texts::add_beside;
use crate::writes::add_written;
use crate::{Site, SiteList};
use js_tree::{
    AssignOp, BoundName, Branch, Catch, Clause, Declared, Expression, ForStart, ForTarget,
    FunctionPart, Place, Statement, StatementNode,
};
use std::alloc::Global;
use utf16_text::{Memory, Text};

/// Adds the sites of statements.
#[cycle(statements)]
pub(crate) fn add_statements(
    alloc: Global,
    all: &[Statement],
    found: &mut SiteList,
) -> Result<(), Memory>
    ensures { OnOk result (found.new ≡ found.old ++ spec.statements_sites (statements_of all.now)) }
{
    let mut left = all;
    while let [one, rest @ ..] = left {
        add_statement(alloc, one, found)?;
        left = rest;
    }
    Ok(())
}

#[cycle(statements)]
fn add_statement(alloc: Global, s: &Statement, found: &mut SiteList) -> Result<(), Memory>
    ensures { OnOk result (found.new ≡ found.old ++ spec.statement_sites s.now) }
{
    match &s.node {
        StatementNode::Block(all) => add_statements(alloc, all.as_slice(), found),
        StatementNode::Empty => Ok(()),
        StatementNode::Expression(e) => add_expression(alloc, e, found),
        StatementNode::Debugger => Ok(()),
        StatementNode::Var(all) => add_declared(alloc, all.as_slice(), found),
        StatementNode::If(all, otherwise) => {
            add_branches(alloc, all.as_slice(), found)?;
            add_otherwise(alloc, otherwise, found)
        }
        StatementNode::DoWhile(body, condition) => {
            add_statement(alloc, body, found)?;
            add_expression(alloc, condition, found)
        }
        StatementNode::While(condition, body) => {
            add_expression(alloc, condition, found)?;
            add_statement(alloc, body, found)
        }
        StatementNode::For(start, condition, step, body) => {
            add_start(alloc, start, found)?;
            add_boxed(alloc, condition, found)?;
            add_boxed(alloc, step, found)?;
            add_statement(alloc, body, found)
        }
        StatementNode::ForIn(target, object, body) => {
            add_target(alloc, target, found)?;
            add_expression(alloc, object, found)?;
            add_statement(alloc, body, found)
        }
        StatementNode::Continue => Ok(()),
        StatementNode::Break => Ok(()),
        StatementNode::Return(e) => add_boxed(alloc, e, found),
        StatementNode::Throw(e) => add_expression(alloc, e, found),
        StatementNode::Switch(e, all) => {
            add_expression(alloc, e, found)?;
            add_clauses(alloc, leading_name(e), all.as_slice(), found)
        }
        StatementNode::Try(block, catch, last) => {
            add_statement(alloc, block, found)?;
            add_catch(alloc, catch, found)?;
            add_otherwise(alloc, last, found)
        }
        StatementNode::Function(x, FunctionPart::Whole(_)) => add_written_name(alloc, x, found),
        StatementNode::Function(x, FunctionPart::Numbered(n)) => {
            add_function(alloc, s.place, x, *n, found)
        }
    }
}

fn add_function(
    alloc: Global,
    place: Place,
    x: &BoundName,
    number: u32,
    found: &mut SiteList,
) -> Result<(), Memory>
    ensures { OnOk result (found.new ≡ found.old ++ spec.declared_function place x.now number) }
{
    add_written_name(alloc, x, found)?;
    let name = Some(x.name.copy(alloc)?);
    found.push(
        alloc,
        Site::Function {
            place,
            name,
            number,
        },
    )
}

#[cycle(statements)]
fn add_otherwise(
    alloc: Global,
    o: &Option<Box<Statement>>,
    found: &mut SiteList,
) -> Result<(), Memory>
    ensures { OnOk result (found.new ≡ found.old ++ spec.otherwise_sites (optional_statement o.now)) }
{
    match o {
        None => Ok(()),
        Some(s) => add_statement(alloc, s, found),
    }
}

fn add_declared(alloc: Global, all: &[Declared], found: &mut SiteList) -> Result<(), Memory>
    ensures { OnOk result (found.new ≡ found.old ++ spec.declarations_sites (declarations_of all.now)) }
{
    let mut left = all;
    while let [one, rest @ ..] = left {
        add_written_name(alloc, &one.name, found)?;
        add_optional(alloc, &one.value, found)?;
        left = rest;
    }
    Ok(())
}

#[cycle(statements)]
fn add_branches(alloc: Global, all: &[Branch], found: &mut SiteList) -> Result<(), Memory>
    ensures { OnOk result (found.new ≡ found.old ++ spec.branches_sites (branches_of all.now)) }
{
    let mut left = all;
    while let [one, rest @ ..] = left {
        add_expression(alloc, &one.condition, found)?;
        add_statement(alloc, &one.body, found)?;
        left = rest;
    }
    Ok(())
}

fn add_start(alloc: Global, o: &Option<Box<ForStart>>, found: &mut SiteList) -> Result<(), Memory>
    ensures { OnOk result (found.new ≡ found.old ++ spec.start_sites (optional_start o.now)) }
{
    match o {
        None => Ok(()),
        Some(start) => add_some_start(alloc, start, found),
    }
}

fn add_some_start(alloc: Global, start: &ForStart, found: &mut SiteList) -> Result<(), Memory>
    ensures { OnOk result (found.new ≡ found.old ++ spec.start_sites (start_of start.now)) }
{
    match start {
        ForStart::Var(_, all) => add_declared(alloc, all.as_slice(), found),
        ForStart::Expression(e) => add_expression(alloc, e, found),
    }
}

fn add_target(alloc: Global, target: &ForTarget, found: &mut SiteList) -> Result<(), Memory>
    ensures { OnOk result (found.new ≡ found.old ++ spec.target_sites (target_of target.now)) }
{
    match target {
        ForTarget::Expression(e) => {
            add_written(alloc, AssignOp::Set, e, found)?;
            add_expression(alloc, e, found)
        }
        ForTarget::Declared(d) => {
            add_written_name(alloc, &d.name, found)?;
            add_optional(alloc, &d.value, found)
        }
    }
}

/// The sites of the clauses of a `switch`, over a value that begins with this name, where it does with one.
#[cycle(statements)]
fn add_clauses(
    alloc: Global,
    leading: Option<&Text>,
    all: &[Clause],
    found: &mut SiteList,
) -> Result<(), Memory>
    ensures { OnOk result (found.new ≡ found.old ++ spec.clauses_sites (option_copied leading.entry) (clauses_of all.now)) }
{
    let mut left = all;
    while let [one, rest @ ..] = left {
        add_test(alloc, leading, &one.test, found)?;
        add_statements(alloc, one.body.as_slice(), found)?;
        left = rest;
    }
    Ok(())
}

fn add_test(
    alloc: Global,
    leading: Option<&Text>,
    o: &Option<Expression>,
    found: &mut SiteList,
) -> Result<(), Memory>
    ensures { OnOk result (found.new ≡ found.old ++ spec.test_sites (option_copied leading.entry) (optional_of o.now)) }
{
    match o {
        None => Ok(()),
        Some(test) => {
            add_beside(alloc, leading, test, found)?;
            add_expression(alloc, test, found)
        }
    }
}

#[cycle(statements)]
fn add_catch(alloc: Global, o: &Option<Box<Catch>>, found: &mut SiteList) -> Result<(), Memory>
    ensures { OnOk result (found.new ≡ found.old ++ spec.handler_sites (optional_catch o.now)) }
{
    match o {
        None => Ok(()),
        Some(catch) => add_statement(alloc, &catch.body, found),
    }
}
