// `if` (ECMA-262 5.1, section 12.5).
ghost use Rattle.js_grammar.specs.Statements as spec;
ghost use Rattle.js_reading.specs.Reads.{Reads};

use js_expression_parser::{Nested, Parser, Row};
use js_grammar::{Around, Turn};
use js_reading::{Read, inside, next_keyword, rest_of};
use js_tree::{Branch, Keyword, Place, Statement, Token};

/// The branches of an `if`, each but the first behind `else if`.
#[derive(Drop)]
pub struct Branches {
    pub around: Around,
}

impl Row for Branches {
    type Part = Branch;

    ghost turn = { λ self end d. spec.a_branch end d self.around };

    /// A branch, and whether `else if` stands behind it.
    #[tactic(auto, unfolding(js_grammar::specs::Statements::a_branch))]
    fn read_turn<'a, N: Nested>(
        &self,
        parser: &Parser<N>,
        tokens: &'a [Token],
    ) -> Read<'a, Turn<Branch>> {
        let (one, rest) = one_branch(parser, self.around, tokens)?;
        let behind = rest_of(rest);
        match (next_keyword(rest), next_keyword(behind)) {
            (Some(Keyword::Else), Some(Keyword::If)) => Ok((Turn::More(one), rest_of(behind))),
            _ => Ok((Turn::Last(one), rest)),
        }
    }
}

/// A condition in brackets and what is done where it holds.
#[tactic(auto, unfolding(js_grammar::specs::Statements::one_branch))]
fn one_branch<'a, N: Nested>(
    parser: &Parser<N>,
    around: Around,
    tokens: &'a [Token],
) -> Read<'a, Branch>
    requires { N.holds parser.now.nested }
    ensures { Reads (spec.one_branch parser.now.end (N.readers parser.now.nested) around tokens.now) result }
{
    let (condition, rest) = parser.in_parentheses(tokens)?;
    let (body, rest) = parser.nested.statement(inside(around), rest)?;
    Ok((Branch { condition, body }, rest))
}

/// What is done where no condition holds.
#[tactic(auto, unfolding(js_grammar::specs::Statements::otherwise))]
fn otherwise<'a, N: Nested>(
    parser: &Parser<N>,
    around: Around,
    tokens: &'a [Token],
) -> Read<'a, Option<Statement>>
    requires { N.holds parser.now.nested }
    ensures { Reads (spec.otherwise parser.now.end (N.readers parser.now.nested) around tokens.now) result }
{
    match next_keyword(tokens) {
        Some(Keyword::Else) => {
            let (one, rest) = parser.nested.statement(inside(around), rest_of(tokens))?;
            Ok((Some(one), rest))
        }
        _ => Ok((None, tokens)),
    }
}

/// `if` behind its word.
#[tactic(auto, unfolding(js_grammar::specs::Statements::if_statement))]
pub fn if_statement<'a, N: Nested>(
    parser: &Parser<N>,
    around: Around,
    place: Place,
    tokens: &'a [Token],
) -> Read<'a, Statement>
    requires { N.holds parser.now.nested }
    ensures { Reads (spec.if_statement parser.now.end (N.readers parser.now.nested) around place tokens.now) result }
{
    let (branches, rest) = parser.row(&Branches { around }, tokens)?;
    let (last, rest) = otherwise(parser, around, rest)?;
    Ok((
        Statement::if_else(parser.alloc, place, branches, last)?,
        rest,
    ))
}
