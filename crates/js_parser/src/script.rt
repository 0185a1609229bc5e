// Whole scripts (ECMA-262 5.1, section 14).
ghost use Rattle.std.specs.Prelude.{◌≤◌, length};
ghost use Rattle.js_grammar.specs.Reading.{Gives};
ghost use Rattle.js_grammar.specs.Statements.{script_within, script_of_text};
ghost use Rattle.utf16_text.specs.declared.limits.TheConstants.{LONGEST_FILE};

use crate::reader::PartReader;
use crate::root::{read_expression, read_statement};
use js_expression_parser::{Parser, Statements};
use js_grammar::NESTING;
use js_lexer::lex;
use js_reading::at_top;
use js_tree::{Place, ReadAnswer, ReadKind, Script, StatementList, Token};
use std::alloc::Global;
use utf16_text::Text;

/// The statements that tokens spell, with room for so many nested parts; `end` is the place after the last unit.
/// Refused comes with the first of Unexpected, TooDeep and Unsupported in the order of reading, Memory for want of it.
#[tactic(auto, unfolding(js_grammar::specs::Statements::script_within))]
pub fn read_tokens(
    alloc: Global,
    tokens: &[Token],
    end: Place,
    room: u32,
) -> Result<StatementList, ReadAnswer>
    ensures { Gives (λ x. x) result (script_within end room tokens.now) }
{
    let parser = Parser {
        alloc,
        end,
        nested: PartReader {
            alloc,
            end,
            room,
            expressions: read_expression,
            statements: read_statement,
        },
    };
    let (body, rest) = parser.row(&Statements { around: at_top() }, tokens)?;
    match rest {
        [] => Ok(body),
        [token, ..] => Err(ReadAnswer::Refused(ReadKind::Unexpected, token.place)),
    }
}

/// The script that a text spells (ECMA-262 5.1, sections 7 and 11 to 14, cut to this profile). Refused comes with the
/// first refusal: one of its tokens stands before all others, and then comes the first of Unexpected, TooDeep and
/// Unsupported in the order of reading. Memory comes for want of it.
pub fn read_script(alloc: Global, source: &Text) -> Result<Script, ReadAnswer>
    requires { length source.now ≤ LONGEST_FILE }
    ensures { Gives (λ script. script) result (script_of_text source.now) }
{
    let lexed = lex(alloc, source)?;
    let body = read_tokens(alloc, lexed.tokens.as_slice(), lexed.end, NESTING)?;
    // So short a text spells fewer nodes and names than a script can have.
    Script::new(body).ok_or(ReadAnswer::Memory)
}
