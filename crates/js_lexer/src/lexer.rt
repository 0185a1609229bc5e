// The tokens of a text.
ghost use Rattle.std.specs.Prelude.{◌≡◌, ◌≤◌, ◌++◌, IfOk, OnOk, length};
ghost use Rattle.js_grammar.specs.Reading.{Gives};
ghost use Rattle.js_grammar.specs.Units.{place_after};
ghost use Rattle.js_grammar.specs.Tokens.{line_ended, piece_tokens, tokens_of};
ghost use Rattle.utf16_text.specs.declared.limits.TheConstants.{LONGEST_FILE};

use crate::pieces::piece_at;
use crate::recent::RecentWords;
use crate::units::{has_break, place_after};
use js_tree::{Place, ReadAnswer, Token, TokenKind};
use std::alloc::Global;
use utf16_text::{Memory, Text};

/// Adds the token of a piece of these units, where it is one, and says whether a line ended since the last token.
fn put(
    tokens: &mut Vec<Token>,
    kind: Option<TokenKind>,
    place: Place,
    after_line: bool,
    units: &[u16],
) -> Result<bool, Memory>
    ensures ended { IfOk result (λ ended. ended ≡ line_ended kind after_line units.now) }
    ensures put { OnOk result (tokens.new.items ≡ tokens.old.items ++ piece_tokens kind place after_line) }
{
    match kind {
        None => Ok(after_line || has_break(units)),
        Some(kind) => {
            tokens.push(Token {
                kind,
                place,
                after_line,
            })?;
            Ok(false)
        }
    }
}

/// The tokens of a text, and the place after its last unit.
#[derive(Drop)]
pub struct Lexed {
    pub tokens: Vec<Token>,
    pub end: Place,
}

/// The tokens of a text, each with its place and whether a line ended before it; or the first refusal: BadToken,
/// FractionLiteral or Unsupported, at the start of what is refused (ECMA-262 5.1, section 7, cut to this profile).
pub fn lex(alloc: Global, source: &Text) -> Result<Lexed, ReadAnswer>
    requires { length source.now ≤ LONGEST_FILE }
    ensures tokens { Gives (λ lexed. lexed.tokens.items) result (tokens_of source.now) }
    ensures end { IfOk result (λ lexed. lexed.end ≡ place_after (record { line = 1; column = 1 }) source.now) }
{
    let mut tokens = Vec::new(alloc);
    let mut recent = RecentWords::new(alloc)?;
    let mut place = Place { line: 1, column: 1 };
    let mut after_line = false;
    let mut rest = source.units();
    'pieces: while !rest.is_empty() {
        let (kind, count) = piece_at(alloc, &mut recent, place, tokens.as_slice(), rest)?;
        let (units, others) = rest.split_at(count);
        after_line = put(&mut tokens, kind, place, after_line, units)?;
        place = place_after(place, units);
        rest = others;
    }
    Ok(Lexed { tokens, end: place })
}
