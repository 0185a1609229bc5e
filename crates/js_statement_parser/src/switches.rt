// `switch` (ECMA-262 5.1, section 12.11).
ghost use Rattle.js_grammar.specs.Statements as spec;
ghost use Rattle.js_reading.specs.Reads.{Reads};

use js_expression_parser::{Nested, Parser, Row, Statements, closed};
use js_grammar::{Around, Form, Turn};
use js_reading::{Read, expect, in_switch, next_keyword, rest_of, with_default};
use js_tree::{Clause, ClauseList, Expression, Keyword, Place, Sign, Statement, Token};

/// Clauses of a `switch` that have a test.
#[derive(Drop)]
pub struct Cases {
    pub around: Around,
}

impl Row for Cases {
    type Part = Clause;

    ghost turn = { λ self end d. spec.a_case end d self.around };

    /// A clause with a test, where one begins here.
    #[tactic(auto, unfolding(js_grammar::specs::Statements::a_case))]
    fn read_turn<'a, N: Nested>(
        &self,
        parser: &Parser<N>,
        tokens: &'a [Token],
    ) -> Read<'a, Turn<Clause>> {
        match next_keyword(tokens) {
            Some(Keyword::Case) => {
                let (test, rest) = parser.expression(Form::Plain, rest_of(tokens))?;
                let (clause, rest) = clause_from(parser, self.around, Some(test), rest)?;
                Ok((Turn::More(clause), rest))
            }
            _ => Ok((Turn::End, tokens)),
        }
    }
}

/// A clause of a `switch` from its colon on.
#[tactic(auto, unfolding(js_grammar::specs::Statements::clause_from))]
fn clause_from<'a, N: Nested>(
    parser: &Parser<N>,
    around: Around,
    test: Option<Expression>,
    tokens: &'a [Token],
) -> Read<'a, Clause>
    requires { N.holds parser.now.nested }
    ensures { Reads (spec.clause_from parser.now.end (N.readers parser.now.nested) around test tokens.now) result }
{
    let rest = expect(parser.end, Sign::Colon, tokens)?;
    let (body, rest) = parser.row(&Statements { around }, rest)?;
    Ok((Clause { test, body }, rest))
}

/// The clauses of a `switch`, at most one of them `default`.
#[tactic(auto, unfolding(js_grammar::specs::Statements::clauses))]
fn clauses<'a, N: Nested>(
    parser: &Parser<N>,
    around: Around,
    tokens: &'a [Token],
) -> Read<'a, ClauseList>
    requires { N.holds parser.now.nested }
    ensures { Reads (spec.clauses parser.now.end (N.readers parser.now.nested) around tokens.now) result }
{
    let (cases, rest) = parser.row(&Cases { around }, tokens)?;
    match next_keyword(rest) {
        Some(Keyword::Default) => {
            let (default, rest) = clause_from(parser, around, None, rest_of(rest))?;
            let (others, rest) = parser.row(&Cases { around }, rest)?;
            Ok((with_default(cases, default, others)?, rest))
        }
        _ => Ok((cases, rest)),
    }
}

/// `switch` behind its word.
#[tactic(auto, unfolding(js_grammar::specs::Statements::switch_statement))]
pub fn switch_statement<'a, N: Nested>(
    parser: &Parser<N>,
    around: Around,
    place: Place,
    tokens: &'a [Token],
) -> Read<'a, Statement>
    requires { N.holds parser.now.nested }
    ensures { Reads (spec.switch_statement parser.now.end (N.readers parser.now.nested) around place tokens.now) result }
{
    let (value, rest) = parser.in_parentheses(tokens)?;
    let rest = expect(parser.end, Sign::LeftBrace, rest)?;
    let (clauses, rest) = clauses(parser, in_switch(around), rest)?;
    let statement = Statement::switch(parser.alloc, place, value, clauses)?;
    closed(parser.end, Sign::RightBrace, statement, rest)
}
