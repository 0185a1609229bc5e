// `return` and `throw` (ECMA-262 5.1, sections 12.9 and 12.13).
ghost use Rattle.js_grammar.specs.Statements as spec;
ghost use Rattle.js_reading.specs.Reads.{Reads};

use js_expression_parser::{Nested, Parser, ended};
use js_grammar::{Around, Form};
use js_reading::{Read, alone, begins_line, ends, refused};
use js_tree::{Place, ReadAnswer, ReadKind, Statement, Token};

/// `return` behind its word.
#[tactic(auto, unfolding(js_grammar::specs::Statements::return_statement))]
pub fn return_statement<'a, N: Nested>(
    parser: &Parser<N>,
    around: Around,
    place: Place,
    tokens: &'a [Token],
) -> Read<'a, Statement>
    requires { N.holds parser.now.nested }
    ensures { Reads (spec.return_statement parser.now.end (N.readers parser.now.nested) around place tokens.now) result }
{
    if !around.in_function {
        return Err(ReadAnswer::Refused(ReadKind::Unexpected, place));
    }
    if ends(tokens) {
        let statement = Statement::return_value(parser.alloc, place, None)?;
        return alone(parser.end, statement, tokens);
    }
    let (value, rest) = parser.expression(Form::Plain, tokens)?;
    let statement = Statement::return_value(parser.alloc, place, Some(value))?;
    ended(parser.end, statement, rest)
}

/// `throw` behind its word.
#[tactic(auto, unfolding(js_grammar::specs::Statements::throw_statement))]
pub fn throw_statement<'a, N: Nested>(
    parser: &Parser<N>,
    place: Place,
    tokens: &'a [Token],
) -> Read<'a, Statement>
    requires { N.holds parser.now.nested }
    ensures { Reads (spec.throw_statement parser.now.end (N.readers parser.now.nested) place tokens.now) result }
{
    if begins_line(tokens) {
        return Err(refused(parser.end, ReadKind::Unexpected, tokens));
    }
    let (value, rest) = parser.expression(Form::Plain, tokens)?;
    let statement = Statement::throw(parser.alloc, place, value)?;
    ended(parser.end, statement, rest)
}
