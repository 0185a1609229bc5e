// `try` (ECMA-262 5.1, section 12.14).
ghost use Rattle.js_grammar.specs.Statements as spec;
ghost use Rattle.js_reading.specs.Reads.{Reads};

use js_expression_parser::{Nested, Parser};
use js_grammar::Around;
use js_reading::{Read, expect, has_part, inside, next_keyword, read_name, refused, rest_of};
use js_tree::{Catch, Keyword, Place, ReadKind, Sign, Statement, Token};

/// The handler of a `try`, where it has one.
#[tactic(auto, unfolding(js_grammar::specs::Statements::catch_part))]
fn catch_part<'a, N: Nested>(
    parser: &Parser<N>,
    around: Around,
    tokens: &'a [Token],
) -> Read<'a, Option<Catch>>
    requires { N.holds parser.now.nested }
    ensures { Reads (spec.catch_part parser.now.end (N.readers parser.now.nested) around tokens.now) result }
{
    match next_keyword(tokens) {
        Some(Keyword::Catch) => {
            let rest = expect(parser.end, Sign::LeftParenthesis, rest_of(tokens))?;
            let (name, rest) = read_name(parser.alloc, parser.end, rest)?;
            let rest = expect(parser.end, Sign::RightParenthesis, rest)?;
            let (body, rest) = parser.nested.block(inside(around), rest)?;
            Ok((Some(Catch { name, body }), rest))
        }
        _ => Ok((None, tokens)),
    }
}

/// The last block of a `try`, where it has one.
#[tactic(auto, unfolding(js_grammar::specs::Statements::finally_part))]
fn finally_part<'a, N: Nested>(
    parser: &Parser<N>,
    around: Around,
    tokens: &'a [Token],
) -> Read<'a, Option<Statement>>
    requires { N.holds parser.now.nested }
    ensures { Reads (spec.finally_part parser.now.end (N.readers parser.now.nested) around tokens.now) result }
{
    match next_keyword(tokens) {
        Some(Keyword::Finally) => {
            let (body, rest) = parser.nested.block(inside(around), rest_of(tokens))?;
            Ok((Some(body), rest))
        }
        _ => Ok((None, tokens)),
    }
}

/// `try` behind its word.
#[tactic(auto, unfolding(js_grammar::specs::Statements::try_statement))]
pub fn try_statement<'a, N: Nested>(
    parser: &Parser<N>,
    around: Around,
    place: Place,
    tokens: &'a [Token],
) -> Read<'a, Statement>
    requires { N.holds parser.now.nested }
    ensures { Reads (spec.try_statement parser.now.end (N.readers parser.now.nested) around place tokens.now) result }
{
    let (body, rest) = parser.nested.block(inside(around), tokens)?;
    let (catch, rest) = catch_part(parser, around, rest)?;
    let (last, rest) = finally_part(parser, around, rest)?;
    if !has_part(&catch, &last) {
        return Err(refused(parser.end, ReadKind::Unexpected, rest));
    }
    Ok((
        Statement::try_block(parser.alloc, place, body, catch, last)?,
        rest,
    ))
}
