// What is read without parts that count as nested.
ghost use Rattle.std.specs.Prelude.{◌≡◌, IfOk};
ghost use Rattle.js_tree.specs.declared.refusal.ReadAnswer.TheVariants.{Refused};
ghost use Rattle.js_tree.specs.Tree.{Continue, Break};
ghost use Rattle.js_grammar.specs.Reading.{Gives};
ghost use Rattle.js_grammar.specs.Readers as spec;
ghost use Rattle.js_grammar.specs.Expressions.{next_name};
ghost use Rattle.js_grammar.specs.Statements.{alone, alone_if, while_by};
ghost use Rattle.js_reading.specs.Reads.{Reads};

use crate::lookahead::{is_sign, next_keyword, next_sign, rest_of};
use crate::nodes::unbound;
use crate::turns::row;
use js_grammar::{Around, Turn};
use js_lexer::keyword_of;
use js_tree::{
    BoundName, Keyword, ParameterList, Place, ReadAnswer, ReadKind, Sign, Statement, StatementNode,
    Token, TokenKind,
};
use std::alloc::Global;
use utf16_text::{Memory, Text};

/// What was read and the tokens behind it, or the first refusal.
pub type Read<'a, T> = Result<(T, &'a [Token]), ReadAnswer>;

/// The place of what comes next.
pub fn place_at(end: Place, tokens: &[Token]) -> Place
    ensures { result ≡ spec.place_at end tokens.now }
{
    match tokens {
        [] => end,
        [token, ..] => token.place,
    }
}

/// The refusal of what comes next.
pub fn refused(end: Place, kind: ReadKind, tokens: &[Token]) -> ReadAnswer
    ensures { result ≡ Refused kind (spec.place_at end tokens.now) }
{
    ReadAnswer::Refused(kind, place_at(end, tokens))
}

/// The tokens behind a sign that must stand here.
#[tactic(auto, unfolding(js_grammar::specs::Readers::expect))]
pub fn expect<'a>(end: Place, sign: Sign, tokens: &'a [Token]) -> Result<&'a [Token], ReadAnswer>
    ensures { Gives (λ x. x.now) result (spec.expect end sign tokens.now) }
{
    if is_sign(sign, next_sign(tokens)) {
        Ok(rest_of(tokens))
    } else {
        Err(refused(end, ReadKind::Unexpected, tokens))
    }
}

/// The tokens behind the `while` of a `do`.
pub fn expect_while<'a>(end: Place, tokens: &'a [Token]) -> Result<&'a [Token], ReadAnswer>
    ensures { Gives (λ x. x.now) result (while_by end (spec.next_keyword tokens.now) tokens.now) }
{
    match next_keyword(tokens) {
        Some(Keyword::While) => Ok(rest_of(tokens)),
        _ => Err(refused(end, ReadKind::Unexpected, tokens)),
    }
}

/// A word that isn't reserved.
#[tactic(auto, unfolding(js_grammar::specs::Readers::name))]
pub fn read_name<'a>(alloc: Global, end: Place, tokens: &'a [Token]) -> Read<'a, BoundName>
    ensures { Reads (spec.name end tokens.now) result }
{
    let [
        Token {
            kind: TokenKind::Word(word),
            ..
        },
        rest @ ..,
    ] = tokens
    else {
        return Err(refused(end, ReadKind::Unexpected, tokens));
    };
    match keyword_of(word.units()) {
        None => Ok((unbound(alloc, word)?, rest)),
        Some(_) => Err(refused(end, ReadKind::Unexpected, tokens)),
    }
}

/// Any word, reserved or not.
#[tactic(auto, unfolding(js_grammar::specs::Readers::any_word))]
pub fn read_word<'a>(alloc: Global, end: Place, tokens: &'a [Token]) -> Read<'a, Text>
    ensures { Reads (spec.any_word end tokens.now) result }
{
    let [
        Token {
            kind: TokenKind::Word(word),
            ..
        },
        rest @ ..,
    ] = tokens
    else {
        return Err(refused(end, ReadKind::Unexpected, tokens));
    };
    Ok((word.copy(alloc)?, rest))
}

/// The name of a property, where one comes next.
pub fn next_name(alloc: Global, tokens: &[Token]) -> Result<Option<Text>, Memory>
    ensures { IfOk result (λ x. x ≡ next_name tokens.now) }
{
    let [token, ..] = tokens else {
        return Ok(None);
    };
    match &token.kind {
        TokenKind::Word(word) => Ok(Some(word.copy(alloc)?)),
        TokenKind::Text(text) => Ok(Some(text.copy(alloc)?)),
        TokenKind::Number(number) => Ok(Some(number.to_text(alloc)?)),
        TokenKind::Pattern(_) | TokenKind::Sign(_) => Ok(None),
    }
}

/// The tokens behind a semicolon, which may be missing before `}`, after a line's end and at the end of the script.
#[tactic(auto, unfolding(js_grammar::specs::Readers::semicolon))]
pub fn read_semicolon<'a>(end: Place, tokens: &'a [Token]) -> Result<&'a [Token], ReadAnswer>
    ensures { Gives (λ x. x.now) result (spec.semicolon end tokens.now) }
{
    let [token, rest @ ..] = tokens else {
        return Ok(tokens);
    };
    match &token.kind {
        TokenKind::Sign(Sign::Semicolon) => Ok(rest),
        TokenKind::Sign(Sign::RightBrace) => Ok(tokens),
        _ => {
            if token.after_line {
                Ok(tokens)
            } else {
                Err(refused(end, ReadKind::Unexpected, tokens))
            }
        }
    }
}

/// A statement of its word alone.
pub fn alone<'a>(end: Place, statement: Statement, tokens: &'a [Token]) -> Read<'a, Statement>
    ensures { Reads (alone end statement tokens.now) result }
{
    let rest = read_semicolon(end, tokens)?;
    Ok((statement, rest))
}

/// `continue` behind its word.
pub fn continued<'a>(
    end: Place,
    around: Around,
    place: Place,
    tokens: &'a [Token],
) -> Read<'a, Statement>
    ensures { Reads (alone_if end around.in_loop (Continue place) place tokens.now) result }
{
    if !around.in_loop {
        return Err(ReadAnswer::Refused(ReadKind::Unexpected, place));
    }
    let node = StatementNode::Continue;
    alone(end, Statement { place, node }, tokens)
}

/// `break` behind its word.
pub fn broken<'a>(
    end: Place,
    around: Around,
    place: Place,
    tokens: &'a [Token],
) -> Read<'a, Statement>
    ensures { Reads (alone_if end around.breakable (Break place) place tokens.now) result }
{
    if !around.breakable {
        return Err(ReadAnswer::Refused(ReadKind::Unexpected, place));
    }
    let node = StatementNode::Break;
    alone(end, Statement { place, node }, tokens)
}

#[tactic(auto, unfolding(js_grammar::specs::Readers::a_parameter))]
fn a_parameter<'a>(alloc: Global, end: Place, tokens: &'a [Token]) -> Read<'a, Turn<BoundName>>
    ensures { Reads (spec.a_parameter end tokens.now) result }
{
    let (name, rest) = read_name(alloc, end, tokens)?;
    match next_sign(rest) {
        Some(Sign::Comma) => Ok((Turn::More(name), rest_of(rest))),
        _ => {
            let rest = expect(end, Sign::RightParenthesis, rest)?;
            Ok((Turn::Last(name), rest))
        }
    }
}

fn parameter_row<'a>(alloc: Global, end: Place, tokens: &'a [Token]) -> Read<'a, ParameterList>
    ensures { Reads (spec.row (spec.a_parameter end) tokens.now) result }
{
    row(alloc, tokens, |rest| a_parameter(alloc, end, rest))
}

/// The parameters of a function, behind `(`.
#[tactic(auto, unfolding(js_grammar::specs::Readers::parameters))]
pub fn read_parameters<'a>(
    alloc: Global,
    end: Place,
    tokens: &'a [Token],
) -> Read<'a, ParameterList>
    ensures { Reads (spec.parameters end tokens.now) result }
{
    match next_sign(tokens) {
        Some(Sign::RightParenthesis) => Ok((ParameterList::new(alloc), rest_of(tokens))),
        _ => parameter_row(alloc, end, tokens),
    }
}
