// Expressions and functions.
use crate::{AssignOp, BinaryOp, BoundName, Place, StatementList, UnaryOp, UpdateForm, UpdateOp};
use js_pattern_reader::PatternLiteral;
use std::marker::Model;
use utf16_text::{List, Text};
use whole_number::Whole;

/// Names alone, in order.
pub type NameList = List<Text>;
/// The parameters of a function.
pub type ParameterList = List<BoundName>;
/// Expressions in a row: the arguments of a call, or what commas part.
pub type ExpressionList = List<Expression>;
/// The items of an array literal; None is a hole.
pub type ItemList = List<Option<Expression>>;

pub type PropertyList = List<Property>;

pub type SuffixList = List<Suffix>;

pub type OperandList = List<Operand>;
/// The functions of a program, by their numbers.
pub type FunctionList = List<Function>;

/// An expression with its place (ECMA-262 5.1, section 11). Brackets leave no node.
///
/// The place is that of the first token inside its brackets; that of the operator for Assign, Update and Unary.
#[derive(Drop)]
#[cycle(tree)]
pub struct Expression {
    pub place: Place,
    pub node: ExpressionNode,
}

/// The kinds of expression, with their parts in the order in which they are written.
#[derive(Drop)]
#[cycle(tree)]
pub enum ExpressionNode {
    Number(Whole),
    Text(Text),
    Pattern(PatternLiteral),
    True,
    False,
    Null,
    This,
    Name(BoundName),
    Array(ItemList),
    Object(PropertyList),
    Function(FunctionPart),
    /// An expression and what follows it, in one flat list.
    Suffixed(Box<Expression>, SuffixList),
    /// The callee and the arguments, which are empty where they were left out.
    New(Box<Expression>, ExpressionList),
    Update(UpdateForm, UpdateOp, Box<Expression>),
    Unary(UnaryOp, Box<Expression>),
    /// A whole row of operators of one binary level, applied from the left.
    Chain(Box<Expression>, OperandList),
    /// The condition, and the value where it is true and where it isn't.
    Conditional(Box<Expression>, Box<Expression>, Box<Expression>),
    Assign(Box<Expression>, AssignOp, Box<Expression>),
    Comma(ExpressionList),
}

/// A function where it stands in a script, or its number in the functions of a program.
#[derive(Drop)]
#[cycle(tree)]
pub enum FunctionPart {
    Whole(Box<Function>),
    Numbered(u32),
}

/// A function (ECMA-262 5.1, section 13).
#[derive(Drop)]
#[cycle(tree)]
pub struct Function {
    /// The own name of a function expression, or none. A declaration's name stands in its statement.
    pub name: Option<BoundName>,
    pub parameters: ParameterList,
    /// The names of its scope. A function that was read has none yet.
    pub names: NameList,
    pub body: StatementList,
}

/// A property of an object literal (ECMA-262 5.1, section 11.1.5). A word, text or number is its name as a text.
#[derive(Drop)]
#[cycle(tree)]
pub struct Property {
    pub name: Text,
    pub value: Expression,
}

/// What follows an expression, with the place of its `.`, `[` or `(` (ECMA-262 5.1, section 11.2).
#[derive(Drop)]
#[cycle(tree)]
pub struct Suffix {
    pub place: Place,
    pub node: SuffixNode,
}

#[derive(Drop)]
#[cycle(tree)]
pub enum SuffixNode {
    Member(Text),
    Index(Expression),
    Call(ExpressionList),
}

/// An operator of a row, with its place, and the operand behind it.
#[derive(Drop)]
#[cycle(tree)]
pub struct Operand {
    pub place: Place,
    pub op: BinaryOp,
    pub value: Expression,
}

impl Model for Expression {
    ghost use Rattle.js_tree.specs.Tree.{ExpressionTree};
    ghost use Rattle.js_tree.specs.Size.{expression_size};
    ghost use Rattle.js_tree.specs.Code.{expression_code};

    ghost Value = { ExpressionTree };

    ghost coded = { expression_code };

    ghost use Rattle.js_tree.specs.View.{expression_view};

    ghost view = { expression_view };

    ghost size = { expression_size };

    ghost use Rattle.js_tree.specs.Smaller.{expression_smaller};

    ghost size_decreases = { expression_smaller };
}
