// Statements.
use crate::{BoundName, Expression, FunctionPart, Place};
use std::marker::Model;
use utf16_text::List;

pub type StatementList = List<Statement>;

pub type DeclaredList = List<Declared>;

pub type BranchList = List<Branch>;

pub type ClauseList = List<Clause>;

/// A statement with the place of its first token (ECMA-262 5.1, sections 12 and 13).
#[derive(Drop)]
#[cycle(tree)]
pub struct Statement {
    pub place: Place,
    pub node: StatementNode,
}

/// The kinds of statement, with their parts in the order in which they are written.
#[derive(Drop)]
#[cycle(tree)]
pub enum StatementNode {
    Block(StatementList),
    Empty,
    Expression(Box<Expression>),
    Debugger,
    Var(DeclaredList),
    /// The branches of `if` and of each `else if`, and what is done where no condition holds.
    If(BranchList, Option<Box<Statement>>),
    DoWhile(Box<Statement>, Box<Expression>),
    While(Box<Expression>, Box<Statement>),
    /// The start, the condition, the step and the body.
    For(Option<Box<ForStart>>, Option<Box<Expression>>, Option<Box<Expression>>, Box<Statement>),
    /// The target, the object whose names are listed, and the body.
    ForIn(Box<ForTarget>, Box<Expression>, Box<Statement>),
    Continue,
    Break,
    Return(Option<Box<Expression>>),
    Throw(Box<Expression>),
    Switch(Box<Expression>, ClauseList),
    /// The block, the handler and the last block. Each block is a Block with a place of its own.
    Try(Box<Statement>, Option<Box<Catch>>, Option<Box<Statement>>),
    /// A function declaration: the declared name, and the function, which has no own name.
    Function(BoundName, FunctionPart),
}

/// A declared name, with its first value or none (ECMA-262 5.1, section 12.2).
#[derive(Drop)]
#[cycle(tree)]
pub struct Declared {
    pub name: BoundName,
    pub value: Option<Expression>,
}

/// A condition and what is done where it holds.
#[derive(Drop)]
#[cycle(tree)]
pub struct Branch {
    pub condition: Expression,
    pub body: Statement,
}

/// How a `for` loop starts: a `var` with its place, or an expression.
#[derive(Drop)]
#[cycle(tree)]
pub enum ForStart {
    Var(Place, DeclaredList),
    Expression(Expression),
}

/// What a `for`-`in` loop writes each name to.
#[derive(Drop)]
#[cycle(tree)]
pub enum ForTarget {
    Expression(Expression),
    Declared(Declared),
}

/// A clause of a `switch`: its test, or none for `default`, and its statements (ECMA-262 5.1, section 12.11).
#[derive(Drop)]
#[cycle(tree)]
pub struct Clause {
    pub test: Option<Expression>,
    pub body: StatementList,
}

/// The handler of a `try`: the name of what was thrown, and a Block (ECMA-262 5.1, section 12.14).
#[derive(Drop)]
#[cycle(tree)]
pub struct Catch {
    pub name: BoundName,
    pub body: Statement,
}

impl Model for Statement {
    ghost use Rattle.js_tree.specs.Tree.{StatementTree};
    ghost use Rattle.js_tree.specs.Size.{statement_size};
    ghost use Rattle.js_tree.specs.Code.{statement_code};

    ghost Value = { StatementTree };

    ghost coded = { statement_code };

    ghost use Rattle.js_tree.specs.View.{statement_view};

    ghost view = { statement_view };

    ghost size = { statement_size };

    ghost use Rattle.js_tree.specs.Smaller.{statement_smaller};

    ghost size_decreases = { statement_smaller };
}
