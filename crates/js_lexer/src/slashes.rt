// Whether a slash divides.
ghost use Rattle.std.specs.Prelude.{◌≡◌, reverse};
ghost use Rattle.js_grammar.specs.Tokens as spec;

use crate::words::keyword_of;
use js_tree::{Keyword, Sign, Token, TokenKind};

fn is_value_word(keyword: Option<Keyword>) -> bool
    ensures { result ≡ spec.is_value_word keyword }
{
    matches!(
        keyword,
        None | Some(Keyword::This | Keyword::Null | Keyword::True | Keyword::False)
    )
}

fn is_closing_sign(sign: Sign) -> bool
    ensures { result ≡ spec.is_closing_sign sign }
{
    matches!(
        sign,
        Sign::RightParenthesis
            | Sign::RightBracket
            | Sign::RightBrace
            | Sign::PlusPlus
            | Sign::MinusMinus
    )
}

fn is_dot(kind: &TokenKind) -> bool
    ensures { result ≡ spec.is_dot kind.now }
{
    matches!(kind, TokenKind::Sign(Sign::Dot))
}

/// Whether the last token is a dot.
fn ends_in_dot(tokens: &[Token]) -> bool
    ensures { result ≡ spec.dot_first (reverse tokens.now) }
{
    match tokens.split_last() {
        Some((last, _)) => is_dot(&last.kind),
        None => false,
    }
}

fn ends_value(after_dot: bool, kind: &TokenKind) -> bool
    ensures { result ≡ spec.ends_value after_dot kind.now }
{
    match kind {
        TokenKind::Word(word) => after_dot || is_value_word(keyword_of(word.units())),
        TokenKind::Number(_) => true,
        TokenKind::Text(_) => true,
        TokenKind::Pattern(_) => false,
        TokenKind::Sign(sign) => is_closing_sign(*sign),
    }
}

/// Whether a slash behind these tokens divides; elsewhere it begins a pattern literal.
pub fn divides(tokens: &[Token]) -> bool
    ensures { result ≡ spec.divides (reverse tokens.now) }
{
    match tokens.split_last() {
        Some((last, others)) => ends_value(ends_in_dot(others), &last.kind),
        None => false,
    }
}
