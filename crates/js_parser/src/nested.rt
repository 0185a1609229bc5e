// The parts that count as nested.
use js_grammar::{Around, Form};

/// A nested part that is an expression.
#[derive(Clone, Copy)]
pub enum ExpressionPart {
    /// An assignment expression.
    Value(Form),
    /// The operand of a prefix operator.
    Operand,
    /// The callee of `new`.
    Callee,
}

/// A nested part that is a statement.
#[derive(Clone, Copy)]
pub enum StatementPart {
    Statement(Around),
    /// A block of `try`.
    Block(Around),
}
