// Blocks, and expressions as statements (ECMA-262 5.1, sections 12.1 and 12.4).
ghost use Rattle.js_grammar.specs.Statements as spec;
ghost use Rattle.js_reading.specs.Reads.{Reads};

use js_expression_parser::{Nested, Parser, Statements, closed, ended};
use js_grammar::{Around, Form};
use js_reading::{Read, expect, inside, place_at};
use js_tree::{Place, Sign, Statement, StatementNode, Token};

/// An expression as a statement.
#[tactic(auto, unfolding(js_grammar::specs::Statements::evaluated))]
pub fn evaluated<'a, N: Nested>(parser: &Parser<N>, tokens: &'a [Token]) -> Read<'a, Statement>
    requires { N.holds parser.now.nested }
    ensures { Reads (spec.evaluated parser.now.end (N.readers parser.now.nested) tokens.now) result }
{
    let place = place_at(parser.end, tokens);
    let (value, rest) = parser.expression(Form::Plain, tokens)?;
    let statement = Statement::expression(parser.alloc, place, value)?;
    ended(parser.end, statement, rest)
}

/// A block behind its `{`.
#[tactic(auto, unfolding(js_grammar::specs::Statements::block_from))]
pub fn block_from<'a, N: Nested>(
    parser: &Parser<N>,
    around: Around,
    place: Place,
    tokens: &'a [Token],
) -> Read<'a, Statement>
    requires { N.holds parser.now.nested }
    ensures { Reads (spec.block_from parser.now.end (N.readers parser.now.nested) around place tokens.now) result }
{
    let statements = Statements {
        around: inside(around),
    };
    let (body, rest) = parser.row(&statements, tokens)?;
    let node = StatementNode::Block(body);
    closed(
        parser.end,
        Sign::RightBrace,
        Statement { place, node },
        rest,
    )
}

/// A block, from its `{` on.
#[tactic(auto, unfolding(js_grammar::specs::Statements::block))]
pub fn block<'a, N: Nested>(
    parser: &Parser<N>,
    around: Around,
    tokens: &'a [Token],
) -> Read<'a, Statement>
    requires { N.holds parser.now.nested }
    ensures { Reads (spec.block parser.now.end (N.readers parser.now.nested) around tokens.now) result }
{
    let place = place_at(parser.end, tokens);
    let rest = expect(parser.end, Sign::LeftBrace, tokens)?;
    block_from(parser, around, place, rest)
}
