// What comes next.
ghost use Rattle.std.specs.Prelude.{◌≡◌};
ghost use Rattle.js_grammar.specs.Readers.{rest_of, next_sign, next_keyword, is_sign};
ghost use Rattle.js_grammar.specs.Expressions.{
  refused_word,
  is_clause_word,
  closes,
  next_name,
  is_accessor_word,
  is_accessor,
  has_name,
};
ghost use Rattle.js_grammar.specs.Statements.{ends, semicolon_if, begins_line};

use js_lexer::{is_spelled, keyword_of};
use js_tree::{Keyword, ReadKind, Sign, Token, TokenKind};

/// The tokens behind the first.
pub fn rest_of(tokens: &[Token]) -> &[Token]
    ensures { result.now ≡ rest_of tokens.now }
{
    match tokens {
        [] => tokens,
        [_, rest @ ..] => rest,
    }
}

pub fn next_sign(tokens: &[Token]) -> Option<Sign>
    ensures { result ≡ next_sign tokens.now }
{
    match tokens {
        [
            Token {
                kind: TokenKind::Sign(sign),
                ..
            },
            ..
        ] => Some(*sign),
        _ => None,
    }
}

pub fn next_keyword(tokens: &[Token]) -> Option<Keyword>
    ensures { result ≡ next_keyword tokens.now }
{
    match tokens {
        [
            Token {
                kind: TokenKind::Word(word),
                ..
            },
            ..
        ] => keyword_of(word.units()),
        _ => None,
    }
}

/// Whether a sign is the one that must stand here.
pub fn is_sign(sign: Sign, next: Option<Sign>) -> bool
    ensures { result ≡ is_sign sign next }
{
    matches!(
        (sign, next),
        (Sign::LeftParenthesis, Some(Sign::LeftParenthesis))
            | (Sign::RightParenthesis, Some(Sign::RightParenthesis))
            | (Sign::LeftBrace, Some(Sign::LeftBrace))
            | (Sign::RightBrace, Some(Sign::RightBrace))
            | (Sign::RightBracket, Some(Sign::RightBracket))
            | (Sign::Colon, Some(Sign::Colon))
            | (Sign::Semicolon, Some(Sign::Semicolon))
    )
}

/// How a reserved word is refused that begins no expression.
pub fn refused_word(word: Keyword) -> ReadKind
    ensures { result ≡ refused_word word }
{
    match word {
        Keyword::Class
        | Keyword::Const
        | Keyword::Enum
        | Keyword::Export
        | Keyword::Extends
        | Keyword::Import
        | Keyword::Super
        | Keyword::With => ReadKind::Unsupported,
        _ => ReadKind::Unexpected,
    }
}

/// Whether no statement begins here.
pub fn closes(tokens: &[Token]) -> bool
    ensures { result ≡ closes tokens.now }
{
    match tokens {
        [] => true,
        [token, ..] => match &token.kind {
            TokenKind::Sign(Sign::RightBrace) => true,
            TokenKind::Word(word) => is_clause_word(keyword_of(word.units())),
            _ => false,
        },
    }
}

fn is_clause_word(keyword: Option<Keyword>) -> bool
    ensures { result ≡ is_clause_word keyword }
{
    matches!(keyword, Some(Keyword::Case | Keyword::Default))
}

/// Whether the value of a `return` is left out.
pub fn ends(tokens: &[Token]) -> bool
    ensures { result ≡ ends tokens.now }
{
    match tokens {
        [] => true,
        [token, ..] => {
            token.after_line
                || matches!(
                    &token.kind,
                    TokenKind::Sign(Sign::Semicolon | Sign::RightBrace)
                )
        }
    }
}

/// Whether a line or the script ends before what comes next.
pub fn begins_line(tokens: &[Token]) -> bool
    ensures { result ≡ begins_line tokens.now }
{
    match tokens {
        [] => true,
        [token, ..] => token.after_line,
    }
}

/// The tokens behind a semicolon, where one comes next.
pub fn semicolon_if(tokens: &[Token]) -> &[Token]
    ensures { result.now ≡ semicolon_if (next_sign tokens.now) tokens.now }
{
    match next_sign(tokens) {
        Some(Sign::Semicolon) => rest_of(tokens),
        _ => tokens,
    }
}

fn has_name(tokens: &[Token]) -> bool
    ensures { result ≡ has_name (next_name tokens.now) }
{
    match tokens {
        [] => false,
        [token, ..] => !matches!(&token.kind, TokenKind::Pattern(_) | TokenKind::Sign(_)),
    }
}

fn is_accessor_word(kind: &TokenKind) -> bool
    ensures { result ≡ is_accessor_word kind.now }
{
    match kind {
        TokenKind::Word(word) => {
            is_spelled(word.units(), "get") || is_spelled(word.units(), "set")
        }
        _ => false,
    }
}

/// Whether `get` or `set` stands before the name of a property.
pub fn is_accessor(tokens: &[Token]) -> bool
    ensures { result ≡ is_accessor tokens.now }
{
    match tokens {
        [] => false,
        [token, rest @ ..] => is_accessor_word(&token.kind) && has_name(rest),
    }
}
