//! Places, tokens and trees of scripts: the data that lexer, parser, printer, scope resolver and evaluator share.
//!
//! Tokens are those of ECMA-262 edition 5.1, section 7, and trees those of its sections 11 to 14, as far as this
//! profile has them. A tree is seen as data of specs/Tree.antt, without pointers. It stands on texts,
//! whole numbers and the reader of patterns.
#![tactic(auto)]

mod bound;
mod count;
mod expression;
mod keyword;
mod make;
mod make_expression;
mod make_statement;
mod operators;
mod place;
mod refusal;
mod script;
mod sign;
mod statement;
mod token;

pub use bound::{Bound, BoundName};
pub use expression::{
    Expression, ExpressionList, ExpressionNode, Function, FunctionList, FunctionPart, ItemList,
    NameList, Operand, OperandList, ParameterList, Property, PropertyList, Suffix, SuffixList,
    SuffixNode,
};
pub use keyword::Keyword;
pub use operators::{AssignOp, BinaryOp, UnaryOp, UpdateForm, UpdateOp};
pub use place::Place;
pub use refusal::{ReadAnswer, ReadKind};
pub use script::Script;
pub use sign::Sign;
pub use statement::{
    Branch, BranchList, Catch, Clause, ClauseList, Declared, DeclaredList, ForStart, ForTarget,
    Statement, StatementList, StatementNode,
};
pub use token::{Token, TokenKind};
