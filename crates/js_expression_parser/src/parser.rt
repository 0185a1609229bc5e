// The parser, and how it reads rows of parts.
ghost use Rattle.std.specs.Prelude.{◌≡◌, Ok};
ghost use Rattle.js_tree.specs.declared.place.Place.{Place};
ghost use Rattle.js_grammar.specs.declared.turn.Turn.{Turn};
ghost use Rattle.js_grammar.specs.declared.turn.Turn.TheVariants.{More};
ghost use Rattle.js_grammar.specs.Readers.{Reader, row};
ghost use Rattle.js_grammar.specs.Expressions.{Deeper};
ghost use Rattle.js_reading.specs.Reads.{Reads};

use crate::nested::Nested;
use js_grammar::Turn;
use js_reading::{Read, row, row_behind};
use js_tree::{Place, Token};
use std::alloc::Global;
use utf16_text::List;

/// What the productions go by. What reads nested parts is passed in, so that no production calls itself.
#[derive(Drop)]
pub struct Parser<N> {
    pub alloc: Global,
    /// The place after the last unit.
    pub end: Place,
    /// Reads nested parts.
    pub nested: N,
}

/// The parts of a row, which are read turn by turn.
pub trait Row {
    type Part: Drop;

    /// What one turn reads.
    ghost turn: { Self → Place → Deeper → Reader (Turn Self.Part) };

    /// Reads one turn.
    fn read_turn<'a, N: Nested>(
        &self,
        parser: &Parser<N>,
        tokens: &'a [Token],
    ) -> Read<'a, Turn<Self::Part>>
        requires { N.holds parser.now.nested }
        ensures { Reads (turn self.now parser.now.end (N.readers parser.now.nested) tokens.now) result };
}

impl<N: Nested> Parser<N> {
    /// The parts that turns give one after another, up to the last.
    pub fn row<'a, R: Row>(&self, parts: &R, tokens: &'a [Token]) -> Read<'a, List<R::Part>>
        requires { N.holds self.now.nested }
        ensures { Reads (row (R.turn parts.now self.now.end (N.readers self.now.nested)) tokens.now) result }
    {
        row(self.alloc, tokens, |rest| parts.read_turn(self, rest))
    }

    /// The same parts behind the first turn, which gave one and left the rest of the tokens.
    #[inline(never)]
    pub fn row_behind<'a, R: Row>(
        &self,
        parts: &R,
        first: R::Part,
        tokens: &[Token],
        rest: &'a [Token],
    ) -> Read<'a, List<R::Part>>
        requires { N.holds self.now.nested }
        ensures { R.turn parts.now self.now.end (N.readers self.now.nested) tokens.now ≡ Ok (More first, rest.now) → Reads (row (R.turn parts.now self.now.end (N.readers self.now.nested)) tokens.now) result }
    {
        row_behind(
            self.alloc,
            first,
            tokens,
            rest,
            |rest| parts.read_turn(self, rest),
        )
    }
}
