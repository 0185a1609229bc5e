// The tokens of scripts.
use crate::{Place, Sign};
use js_pattern_reader::PatternLiteral;
use utf16_text::Text;
use whole_number::Whole;

/// What a token is (ECMA-262 5.1, sections 7.6 to 7.8). A reserved word is a word.
#[derive(Drop)]
pub enum TokenKind {
    /// A name or a reserved word.
    Word(Text),
    /// A number literal, by its value.
    Number(Whole),
    /// A text literal, by its value.
    Text(Text),
    /// A pattern literal. Its body is kept in ASCII.
    Pattern(PatternLiteral),
    Sign(Sign),
}

/// A token, the place of its first unit, and whether a line ended between the token before it and itself.
#[derive(Drop)]
pub struct Token {
    pub kind: TokenKind,
    pub place: Place,
    pub after_line: bool,
}
