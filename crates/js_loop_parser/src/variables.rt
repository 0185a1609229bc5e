// `var` (ECMA-262 5.1, section 12.2).
ghost use Rattle.js_grammar.specs.Statements as spec;
ghost use Rattle.js_reading.specs.Reads.{Reads};

use js_expression_parser::{Nested, Parser, Row, ended};
use js_grammar::{Form, Turn};
use js_reading::{Read, next_sign, read_name, rest_of};
use js_tree::{Declared, Expression, Place, Sign, Statement, StatementNode, Token};

/// Declared names and their first values.
#[derive(Drop)]
pub struct Declarations {
    pub form: Form,
}

impl Row for Declarations {
    type Part = Declared;

    ghost turn = { λ self end d. spec.a_declared end d self.form };

    /// A declared name, and whether a comma stands behind it.
    #[tactic(auto, unfolding(js_grammar::specs::Statements::a_declared))]
    fn read_turn<'a, N: Nested>(
        &self,
        parser: &Parser<N>,
        tokens: &'a [Token],
    ) -> Read<'a, Turn<Declared>> {
        let (name, rest) = read_name(parser.alloc, parser.end, tokens)?;
        let (value, rest) = first_value(parser, self.form, rest)?;
        let declared = Declared { name, value };
        match next_sign(rest) {
            Some(Sign::Comma) => Ok((Turn::More(declared), rest_of(rest))),
            _ => Ok((Turn::Last(declared), rest)),
        }
    }
}

/// The first value of a declared name, where it has one.
#[tactic(auto, unfolding(js_grammar::specs::Statements::first_value))]
fn first_value<'a, N: Nested>(
    parser: &Parser<N>,
    form: Form,
    tokens: &'a [Token],
) -> Read<'a, Option<Expression>>
    requires { N.holds parser.now.nested }
    ensures { Reads (spec.first_value parser.now.end (N.readers parser.now.nested) form tokens.now) result }
{
    match next_sign(tokens) {
        Some(Sign::Assign) => {
            let (value, rest) = parser.nested.value(form, rest_of(tokens))?;
            Ok((Some(value), rest))
        }
        _ => Ok((None, tokens)),
    }
}

/// `var` behind its word.
#[tactic(auto, unfolding(js_grammar::specs::Statements::var_statement))]
pub fn var_statement<'a, N: Nested>(
    parser: &Parser<N>,
    place: Place,
    tokens: &'a [Token],
) -> Read<'a, Statement>
    requires { N.holds parser.now.nested }
    ensures { Reads (spec.var_statement parser.now.end (N.readers parser.now.nested) place tokens.now) result }
{
    let (names, rest) = parser.row(&Declarations { form: Form::Plain }, tokens)?;
    let node = StatementNode::Var(names);
    ended(parser.end, Statement { place, node }, rest)
}
