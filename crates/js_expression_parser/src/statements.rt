// Statements in a row.
ghost use Rattle.js_grammar.specs.Expressions.{a_statement};
ghost use Rattle.js_reading.specs.Reads.{Reads};

use crate::nested::Nested;
use crate::parser::{Parser, Row};
use js_grammar::{Around, Turn};
use js_reading::{Read, closes};
use js_tree::{Statement, Token};

/// Statements up to what ends them.
#[derive(Drop)]
pub struct Statements {
    pub around: Around,
}

impl Row for Statements {
    type Part = Statement;

    ghost turn = { λ self end d. a_statement d self.around };

    #[tactic(auto, unfolding(js_grammar::specs::Expressions::a_statement))]
    fn read_turn<'a, N: Nested>(
        &self,
        parser: &Parser<N>,
        tokens: &'a [Token],
    ) -> Read<'a, Turn<Statement>> {
        if closes(tokens) {
            return Ok((Turn::End, tokens));
        }
        let (one, rest) = parser.nested.statement(self.around, tokens)?;
        Ok((Turn::More(one), rest))
    }
}
