// `do`, `while` and `for` (ECMA-262 5.1, section 12.6).
ghost use Rattle.js_tree.specs.View.{target_of};
ghost use Rattle.js_tree.specs.Parts.{start_or_none};
ghost use Rattle.js_grammar.specs.Readers.{next_keyword};
ghost use Rattle.js_grammar.specs.Statements as spec;
ghost use Rattle.js_reading.specs.Reads.{Reads};

use crate::variables::Declarations;
use js_expression_parser::{Nested, Parser, closed};
use js_grammar::{Around, Form, is_target};
use js_reading::{
    Read, before_in, expect, expect_while, in_loop, is_sign, next_keyword, next_sign, place_at,
    refused, rest_of, semicolon_if,
};
use js_tree::{Expression, ForStart, ForTarget, Keyword, Place, ReadKind, Sign, Statement, Token};

/// `do` behind its word.
#[tactic(auto, unfolding(js_grammar::specs::Statements::do_statement))]
pub fn do_statement<'a, N: Nested>(
    parser: &Parser<N>,
    around: Around,
    place: Place,
    tokens: &'a [Token],
) -> Read<'a, Statement>
    requires { N.holds parser.now.nested }
    ensures { Reads (spec.do_statement parser.now.end (N.readers parser.now.nested) around place tokens.now) result }
{
    let (body, rest) = parser.nested.statement(in_loop(around), tokens)?;
    let rest = expect_while(parser.end, rest)?;
    let (condition, rest) = parser.in_parentheses(rest)?;
    Ok((
        Statement::do_while(parser.alloc, place, body, condition)?,
        semicolon_if(rest),
    ))
}

/// `while` behind its word.
#[tactic(auto, unfolding(js_grammar::specs::Statements::while_statement))]
pub fn while_statement<'a, N: Nested>(
    parser: &Parser<N>,
    around: Around,
    place: Place,
    tokens: &'a [Token],
) -> Read<'a, Statement>
    requires { N.holds parser.now.nested }
    ensures { Reads (spec.while_statement parser.now.end (N.readers parser.now.nested) around place tokens.now) result }
{
    let (condition, rest) = parser.in_parentheses(tokens)?;
    let (body, rest) = parser.nested.statement(in_loop(around), rest)?;
    Ok((
        Statement::while_loop(parser.alloc, place, condition, body)?,
        rest,
    ))
}

/// An expression of a `for` header or none, and the sign that closes it.
#[tactic(auto, unfolding(js_grammar::specs::Statements::optional_expression))]
fn optional_expression<'a, N: Nested>(
    parser: &Parser<N>,
    close: Sign,
    tokens: &'a [Token],
) -> Read<'a, Option<Expression>>
    requires { N.holds parser.now.nested }
    ensures { Reads (spec.optional_expression parser.now.end (N.readers parser.now.nested) close tokens.now) result }
{
    if is_sign(close, next_sign(tokens)) {
        return Ok((None, rest_of(tokens)));
    }
    let (value, rest) = parser.expression(Form::NoIn, tokens)?;
    closed(parser.end, close, Some(value), rest)
}

/// A `for` from its first semicolon on.
#[tactic(auto, unfolding(js_grammar::specs::Statements::for_from))]
fn for_from<'a, N: Nested>(
    parser: &Parser<N>,
    around: Around,
    place: Place,
    start: Option<ForStart>,
    tokens: &'a [Token],
) -> Read<'a, Statement>
    requires { N.holds parser.now.nested }
    ensures { Reads (spec.for_from parser.now.end (N.readers parser.now.nested) around place (start_or_none start) tokens.now) result }
{
    let rest = expect(parser.end, Sign::Semicolon, tokens)?;
    let (condition, rest) = optional_expression(parser, Sign::Semicolon, rest)?;
    let (step, rest) = optional_expression(parser, Sign::RightParenthesis, rest)?;
    let (body, rest) = parser.nested.statement(in_loop(around), rest)?;
    Ok((
        Statement::for_loop(parser.alloc, place, start, condition, step, body)?,
        rest,
    ))
}

/// A `for`-`in` behind its `in`.
#[tactic(auto, unfolding(js_grammar::specs::Statements::for_in_from))]
fn for_in_from<'a, N: Nested>(
    parser: &Parser<N>,
    around: Around,
    place: Place,
    target: ForTarget,
    tokens: &'a [Token],
) -> Read<'a, Statement>
    requires { N.holds parser.now.nested }
    ensures { Reads (spec.for_in_from parser.now.end (N.readers parser.now.nested) around place (target_of target) tokens.now) result }
{
    let (object, rest) = parser.expression(Form::NoIn, tokens)?;
    let rest = expect(parser.end, Sign::RightParenthesis, rest)?;
    let (body, rest) = parser.nested.statement(in_loop(around), rest)?;
    Ok((
        Statement::for_in(parser.alloc, place, target, object, body)?,
        rest,
    ))
}

/// A `for` whose header begins with `var`, behind that word.
#[tactic(auto, unfolding(js_grammar::specs::Statements::for_var))]
fn for_var<'a, N: Nested>(
    parser: &Parser<N>,
    around: Around,
    place: Place,
    var_place: Place,
    tokens: &'a [Token],
) -> Read<'a, Statement>
    requires { N.holds parser.now.nested }
    ensures { Reads (spec.for_var parser.now.end (N.readers parser.now.nested) around place var_place tokens.now) result }
{
    let (names, rest) = parser.row(&Declarations { form: Form::NoIn }, tokens)?;
    match before_in(next_keyword(rest), names) {
        Ok(name) => {
            let target = ForTarget::Declared(name);
            for_in_from(parser, around, place, target, rest_of(rest))
        }
        Err(names) => {
            let start = ForStart::Var(var_place, names);
            for_from(parser, around, place, Some(start), rest)
        }
    }
}

/// A `for` whose header begins with an expression.
#[tactic(auto, unfolding(js_grammar::specs::Statements::for_value))]
fn for_value<'a, N: Nested>(
    parser: &Parser<N>,
    around: Around,
    place: Place,
    tokens: &'a [Token],
) -> Read<'a, Statement>
    requires { N.holds parser.now.nested }
    ensures { Reads (spec.for_value parser.now.end (N.readers parser.now.nested) around place tokens.now) result }
{
    let (value, rest) = parser.expression(Form::NoIn, tokens)?;
    let Some(Keyword::In) = next_keyword(rest) else {
        let start = ForStart::Expression(value);
        return for_from(parser, around, place, Some(start), rest);
    };
    if !is_target(&value) {
        return Err(refused(parser.end, ReadKind::Unexpected, rest));
    }
    let target = ForTarget::Expression(value);
    for_in_from(parser, around, place, target, rest_of(rest))
}

/// A `for` whose header begins with `var` or an expression.
fn for_word<'a, N: Nested>(
    parser: &Parser<N>,
    around: Around,
    place: Place,
    tokens: &'a [Token],
) -> Read<'a, Statement>
    requires { N.holds parser.now.nested }
    ensures { Reads (spec.for_word parser.now.end (N.readers parser.now.nested) around place (next_keyword tokens.now) tokens.now) result }
{
    match next_keyword(tokens) {
        Some(Keyword::Var) => {
            let var_place = place_at(parser.end, tokens);
            for_var(parser, around, place, var_place, rest_of(tokens))
        }
        _ => for_value(parser, around, place, tokens),
    }
}

/// `for` behind its word.
#[tactic(auto, unfolding(js_grammar::specs::Statements::for_statement))]
pub fn for_statement<'a, N: Nested>(
    parser: &Parser<N>,
    around: Around,
    place: Place,
    tokens: &'a [Token],
) -> Read<'a, Statement>
    requires { N.holds parser.now.nested }
    ensures { Reads (spec.for_statement parser.now.end (N.readers parser.now.nested) around place tokens.now) result }
{
    let rest = expect(parser.end, Sign::LeftParenthesis, tokens)?;
    match next_sign(rest) {
        Some(Sign::Semicolon) => for_from(parser, around, place, None, rest),
        _ => for_word(parser, around, place, rest),
    }
}
