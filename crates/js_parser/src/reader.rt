// Nested parts, by two functions that are passed in.
ghost use Rattle.js_grammar.specs.Statements as spec;
ghost use Rattle.js_parser.specs.Nested.{ReadsNested};

use crate::nested::{ExpressionPart, StatementPart};
use js_expression_parser::Nested;
use js_grammar::{Around, Form};
use js_reading::Read;
use js_tree::{Expression, Place, Statement, Token};
use std::alloc::Global;

/// Reads nested parts by functions that are passed in, so that no function but these calls itself.
#[derive(Drop)]
pub struct PartReader<E, S> {
    pub alloc: Global,
    /// The place after the last unit.
    pub end: Place,
    /// How many parts may be nested, one in another.
    pub room: u32,
    /// Reads a nested expression with this room.
    pub expressions: E,
    /// Reads a nested statement with this room.
    pub statements: S,
}

impl<
    E: Fn(Global, Place, u32, ExpressionPart, &[Token]) -> Read<'_, Expression>,
    S: Fn(Global, Place, u32, StatementPart, &[Token]) -> Read<'_, Statement>,
> Nested for PartReader<E, S> {
    ghost holds = { λ r. ReadsNested E.Fn S.Fn r };

    ghost readers = { λ r. spec.deeper r.end r.room };

    fn value<'a>(&self, form: Form, tokens: &'a [Token]) -> Read<'a, Expression> {
        let part = ExpressionPart::Value(form);
        (self.expressions)(self.alloc, self.end, self.room, part, tokens)
    }

    fn operand<'a>(&self, tokens: &'a [Token]) -> Read<'a, Expression> {
        let part = ExpressionPart::Operand;
        (self.expressions)(self.alloc, self.end, self.room, part, tokens)
    }

    fn callee<'a>(&self, tokens: &'a [Token]) -> Read<'a, Expression> {
        let part = ExpressionPart::Callee;
        (self.expressions)(self.alloc, self.end, self.room, part, tokens)
    }

    fn statement<'a>(&self, around: Around, tokens: &'a [Token]) -> Read<'a, Statement> {
        let part = StatementPart::Statement(around);
        (self.statements)(self.alloc, self.end, self.room, part, tokens)
    }

    fn block<'a>(&self, around: Around, tokens: &'a [Token]) -> Read<'a, Statement> {
        let part = StatementPart::Block(around);
        (self.statements)(self.alloc, self.end, self.room, part, tokens)
    }
}
