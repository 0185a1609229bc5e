// The names that a body declares.
ghost use Rattle.std.specs.Prelude.{◌≡◌, ◌++◌, ◌∷◌, [], OnOk, map};
ghost use Rattle.js_tree.specs.Tree.{statements_of};
ghost use Rattle.js_tree.specs.View.{declarations_of, branches_of, clauses_of, optional_statement, optional_start};
ghost use Rattle.js_tree.specs.View.{start_of, target_of, optional_catch};
ghost use Rattle.js_binding.specs.Names as spec;

use js_tree::{
    BoundName, Branch, Catch, Clause, Declared, ForStart, ForTarget, FunctionPart, NameList,
    Statement, StatementNode,
};
use std::alloc::Global;
use utf16_text::Memory;

fn add(alloc: Global, x: &BoundName, names: &mut NameList) -> Result<(), Memory>
    ensures { OnOk result (names.new ≡ names.old ++ x.now.name ∷ []) }
{
    names.push(alloc, x.name.copy(alloc)?)
}

/// Adds the names of parameters.
pub fn add_parameters(alloc: Global, all: &[BoundName], names: &mut NameList) -> Result<(), Memory>
    ensures { OnOk result (names.new ≡ names.old ++ map (λ x. x.name) all.now) }
{
    for x in all {
        add(alloc, x, names)?;
    }
    Ok(())
}

/// Adds the names of the functions that a body declares.
pub fn add_functions(alloc: Global, all: &[Statement], names: &mut NameList) -> Result<(), Memory>
    ensures { OnOk result (names.new ≡ names.old ++ spec.functions_of (statements_of all.now)) }
{
    let mut left = all;
    while let [one, rest @ ..] = left {
        add_function(alloc, one, names)?;
        left = rest;
    }
    Ok(())
}

fn add_function(alloc: Global, one: &Statement, names: &mut NameList) -> Result<(), Memory>
    ensures { OnOk result (names.new ≡ names.old ++ spec.declared_function one.now) }
{
    match &one.node {
        StatementNode::Function(x, FunctionPart::Whole(_)) => add(alloc, x, names),
        StatementNode::Function(x, FunctionPart::Numbered(_)) => add(alloc, x, names),
        StatementNode::Block(_) => Ok(()),
        StatementNode::Empty => Ok(()),
        StatementNode::Expression(_) => Ok(()),
        StatementNode::Debugger => Ok(()),
        StatementNode::Var(_) => Ok(()),
        StatementNode::If(_, _) => Ok(()),
        StatementNode::DoWhile(_, _) => Ok(()),
        StatementNode::While(_, _) => Ok(()),
        StatementNode::For(_, _, _, _) => Ok(()),
        StatementNode::ForIn(_, _, _) => Ok(()),
        StatementNode::Continue => Ok(()),
        StatementNode::Break => Ok(()),
        StatementNode::Return(_) => Ok(()),
        StatementNode::Throw(_) => Ok(()),
        StatementNode::Switch(_, _) => Ok(()),
        StatementNode::Try(_, _, _) => Ok(()),
    }
}

/// Adds the variables of a body.
#[cycle(variables)]
pub fn add_variables(alloc: Global, all: &[Statement], names: &mut NameList) -> Result<(), Memory>
    ensures { OnOk result (names.new ≡ names.old ++ spec.variables_of_all (statements_of all.now)) }
{
    let mut left = all;
    while let [one, rest @ ..] = left {
        of_statement(alloc, one, names)?;
        left = rest;
    }
    Ok(())
}

#[cycle(variables)]
fn of_statement(alloc: Global, s: &Statement, names: &mut NameList) -> Result<(), Memory>
    ensures { OnOk result (names.new ≡ names.old ++ spec.variables_of s.now) }
{
    match &s.node {
        StatementNode::Block(all) => add_variables(alloc, all.as_slice(), names),
        StatementNode::Var(all) => of_declared(alloc, all.as_slice(), names),
        StatementNode::If(all, otherwise) => {
            of_branches(alloc, all.as_slice(), names)?;
            of_otherwise(alloc, otherwise, names)
        }
        StatementNode::DoWhile(body, _) => of_statement(alloc, body, names),
        StatementNode::While(_, body) => of_statement(alloc, body, names),
        StatementNode::For(start, _, _, body) => {
            of_start(alloc, start, names)?;
            of_statement(alloc, body, names)
        }
        StatementNode::ForIn(target, _, body) => {
            of_target(alloc, target, names)?;
            of_statement(alloc, body, names)
        }
        StatementNode::Switch(_, all) => of_clauses(alloc, all.as_slice(), names),
        StatementNode::Try(block, catch, last) => {
            of_statement(alloc, block, names)?;
            of_catch(alloc, catch, names)?;
            of_otherwise(alloc, last, names)
        }
        StatementNode::Empty => Ok(()),
        StatementNode::Expression(_) => Ok(()),
        StatementNode::Debugger => Ok(()),
        StatementNode::Continue => Ok(()),
        StatementNode::Break => Ok(()),
        StatementNode::Return(_) => Ok(()),
        StatementNode::Throw(_) => Ok(()),
        StatementNode::Function(_, FunctionPart::Whole(_)) => Ok(()),
        StatementNode::Function(_, FunctionPart::Numbered(_)) => Ok(()),
    }
}

#[cycle(variables)]
fn of_otherwise(
    alloc: Global,
    o: &Option<Box<Statement>>,
    names: &mut NameList,
) -> Result<(), Memory>
    ensures { OnOk result (names.new ≡ names.old ++ spec.variables_of_otherwise (optional_statement o.now)) }
{
    match o {
        None => Ok(()),
        Some(s) => of_statement(alloc, s, names),
    }
}

fn of_declared(alloc: Global, all: &[Declared], names: &mut NameList) -> Result<(), Memory>
    ensures { OnOk result (names.new ≡ names.old ++ spec.variables_of_declarations (declarations_of all.now)) }
{
    let mut left = all;
    while let [one, rest @ ..] = left {
        add(alloc, &one.name, names)?;
        left = rest;
    }
    Ok(())
}

#[cycle(variables)]
fn of_branches(alloc: Global, all: &[Branch], names: &mut NameList) -> Result<(), Memory>
    ensures { OnOk result (names.new ≡ names.old ++ spec.variables_of_branches (branches_of all.now)) }
{
    let mut left = all;
    while let [one, rest @ ..] = left {
        of_statement(alloc, &one.body, names)?;
        left = rest;
    }
    Ok(())
}

fn of_start(alloc: Global, o: &Option<Box<ForStart>>, names: &mut NameList) -> Result<(), Memory>
    ensures { OnOk result (names.new ≡ names.old ++ spec.variables_of_start (optional_start o.now)) }
{
    match o {
        None => Ok(()),
        Some(start) => of_some_start(alloc, start, names),
    }
}

fn of_some_start(alloc: Global, start: &ForStart, names: &mut NameList) -> Result<(), Memory>
    ensures { OnOk result (names.new ≡ names.old ++ spec.variables_of_start (start_of start.now)) }
{
    match start {
        ForStart::Var(_, all) => of_declared(alloc, all.as_slice(), names),
        ForStart::Expression(_) => Ok(()),
    }
}

fn of_target(alloc: Global, target: &ForTarget, names: &mut NameList) -> Result<(), Memory>
    ensures { OnOk result (names.new ≡ names.old ++ spec.variables_of_target (target_of target.now)) }
{
    match target {
        ForTarget::Expression(_) => Ok(()),
        ForTarget::Declared(d) => add(alloc, &d.name, names),
    }
}

#[cycle(variables)]
fn of_clauses(alloc: Global, all: &[Clause], names: &mut NameList) -> Result<(), Memory>
    ensures { OnOk result (names.new ≡ names.old ++ spec.variables_of_clauses (clauses_of all.now)) }
{
    let mut left = all;
    while let [one, rest @ ..] = left {
        add_variables(alloc, one.body.as_slice(), names)?;
        left = rest;
    }
    Ok(())
}

#[cycle(variables)]
fn of_catch(alloc: Global, o: &Option<Box<Catch>>, names: &mut NameList) -> Result<(), Memory>
    ensures { OnOk result (names.new ≡ names.old ++ spec.variables_of_handler (optional_catch o.now)) }
{
    match o {
        None => Ok(()),
        Some(catch) => of_statement(alloc, &catch.body, names),
    }
}
