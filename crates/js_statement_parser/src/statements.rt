// Statements of any kind, by plain descent (ECMA-262 5.1, sections 12 and 13).
ghost use Rattle.js_grammar.specs.Statements as spec;
ghost use Rattle.js_reading.specs.Reads.{Reads};

use crate::attempts::try_statement;
use crate::blocks::{block_from, evaluated};
use crate::branches::if_statement;
use crate::ends::{return_statement, throw_statement};
use crate::switches::switch_statement;
use js_expression_parser::{Nested, Parser};
use js_grammar::Around;
use js_lexer::keyword_of;
use js_loop_parser::{do_statement, for_statement, var_statement, while_statement};
use js_reading::{Read, alone, broken, continued, next_sign, read_name, rest_of};
use js_tree::{
    Keyword, Place, ReadAnswer, ReadKind, Sign, Statement, StatementNode, Token, TokenKind,
};

/// A function declaration behind its word.
#[tactic(auto, unfolding(js_grammar::specs::Statements::function_statement))]
fn function_statement<'a, N: Nested>(
    parser: &Parser<N>,
    around: Around,
    place: Place,
    tokens: &'a [Token],
) -> Read<'a, Statement>
    requires { N.holds parser.now.nested }
    ensures { Reads (spec.function_statement parser.now.end (N.readers parser.now.nested) around place tokens.now) result }
{
    let (name, rest) = read_name(parser.alloc, parser.end, tokens)?;
    if !around.direct {
        return Err(ReadAnswer::Refused(ReadKind::Unsupported, place));
    }
    let (function, rest) = parser.function_from(None, rest)?;
    Ok((
        Statement::function(parser.alloc, place, name, function)?,
        rest,
    ))
}

/// A statement that begins with a word, at that word.
fn word_statement<'a, N: Nested>(
    parser: &Parser<N>,
    keyword: Option<Keyword>,
    around: Around,
    place: Place,
    tokens: &'a [Token],
) -> Read<'a, Statement>
    requires { N.holds parser.now.nested }
    ensures { Reads (spec.word_statement parser.now.end (N.readers parser.now.nested) around keyword place tokens.now) result }
{
    let rest = rest_of(tokens);
    match keyword {
        None => match next_sign(rest) {
            Some(Sign::Colon) => Err(ReadAnswer::Refused(ReadKind::Unsupported, place)),
            _ => evaluated(parser, tokens),
        },
        Some(Keyword::Var) => var_statement(parser, place, rest),
        Some(Keyword::If) => if_statement(parser, around, place, rest),
        Some(Keyword::Do) => do_statement(parser, around, place, rest),
        Some(Keyword::While) => while_statement(parser, around, place, rest),
        Some(Keyword::For) => for_statement(parser, around, place, rest),
        Some(Keyword::Continue) => continued(parser.end, around, place, rest),
        Some(Keyword::Break) => broken(parser.end, around, place, rest),
        Some(Keyword::Return) => return_statement(parser, around, place, rest),
        Some(Keyword::Throw) => throw_statement(parser, place, rest),
        Some(Keyword::Switch) => switch_statement(parser, around, place, rest),
        Some(Keyword::Try) => try_statement(parser, around, place, rest),
        Some(Keyword::Function) => function_statement(parser, around, place, rest),
        Some(Keyword::Debugger) => {
            let node = StatementNode::Debugger;
            alone(parser.end, Statement { place, node }, rest)
        }
        Some(
            Keyword::Class
            | Keyword::Const
            | Keyword::Enum
            | Keyword::Export
            | Keyword::Extends
            | Keyword::Import
            | Keyword::Super
            | Keyword::With,
        ) => Err(ReadAnswer::Refused(ReadKind::Unsupported, place)),
        Some(_) => evaluated(parser, tokens),
    }
}

/// A statement.
#[tactic(auto, unfolding(js_grammar::specs::Statements::statement))]
pub fn statement<'a, N: Nested>(
    parser: &Parser<N>,
    around: Around,
    tokens: &'a [Token],
) -> Read<'a, Statement>
    requires { N.holds parser.now.nested }
    ensures { Reads (spec.statement parser.now.end (N.readers parser.now.nested) around tokens.now) result }
{
    let [token, rest @ ..] = tokens else {
        return evaluated(parser, tokens);
    };
    let place = token.place;
    match &token.kind {
        TokenKind::Word(word) => {
            word_statement(parser, keyword_of(word.units()), around, place, tokens)
        }
        TokenKind::Sign(Sign::LeftBrace) => block_from(parser, around, place, rest),
        TokenKind::Sign(Sign::Semicolon) => {
            let node = StatementNode::Empty;
            Ok((Statement { place, node }, rest))
        }
        _ => evaluated(parser, tokens),
    }
}
