// What stands behind a part.
ghost use Rattle.js_grammar.specs.Readers.{listed};
ghost use Rattle.js_expression_parser.specs.Behind as spec;
ghost use Rattle.js_reading.specs.Reads.{Reads};

use js_grammar::Turn;
use js_reading::{Read, expect, next_sign, read_semicolon, rest_of};
use js_tree::{Place, Sign, Token};

/// A part, behind which this sign must stand.
pub fn closed<'a, T: Drop>(end: Place, close: Sign, part: T, tokens: &'a [Token]) -> Read<'a, T>
    ensures { Reads (spec.closed end close part tokens.now) result }
{
    let rest = expect(end, close, tokens)?;
    Ok((part, rest))
}

/// A part, behind which a semicolon must stand. It may be missing as everywhere (ECMA-262 5.1, section 7.9).
pub fn ended<'a, T: Drop>(end: Place, part: T, tokens: &'a [Token]) -> Read<'a, T>
    ensures { Reads (spec.ended end part tokens.now) result }
{
    let rest = read_semicolon(end, tokens)?;
    Ok((part, rest))
}

/// A part of a list in brackets, behind which a comma or the closing bracket must stand.
pub fn listed<'a, T: Drop>(
    end: Place,
    close: Sign,
    part: T,
    tokens: &'a [Token],
) -> Read<'a, Turn<T>>
    ensures { Reads (listed end close part tokens.now) result }
{
    match next_sign(tokens) {
        Some(Sign::Comma) => Ok((Turn::More(part), rest_of(tokens))),
        _ => {
            let rest = expect(end, close, tokens)?;
            Ok((Turn::Last(part), rest))
        }
    }
}
