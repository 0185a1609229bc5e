// The tokens of texts, and each refusal at its place.
use crate::reading::{refusal, source_in};
use anyhow::{Result, bail};
use case_rows::written_text;
use js_lexer::lex;
use js_tree::{Token, TokenKind};
use std::alloc::Global;

/// The tokens of a script, or its refusal.
pub(crate) fn of_script(alloc: Global, fields: &[&str]) -> Result<String> {
    let [source] = fields else {
        bail!("a script");
    };
    match lex(alloc, &source_in(alloc, source)?) {
        Ok(lexed) => in_one_line(alloc, lexed.tokens.as_slice()),
        Err(answer) => refusal(alloc, answer),
    }
}

fn in_one_line(alloc: Global, tokens: &[Token]) -> Result<String> {
    let mut line = String::new(alloc);
    for token in tokens {
        if !line.is_empty() {
            line.push_str(", ")?;
        }
        line.push_str(described(alloc, token)?.as_str())?;
    }
    Ok(line)
}

/// A token as `word NAME`, `number N`, `text [T]`, `pattern [BODY] [FLAGS]` or the sign's name, then its place, and `!`
/// where a line ended before it.
fn described(alloc: Global, token: &Token) -> Result<String> {
    let place = token.place;
    let mark = if token.after_line { "!" } else { "" };
    let spelled = match &token.kind {
        TokenKind::Word(word) => {
            format!(in alloc; "word {}", written_text(alloc, word)?.as_str())?
        }
        TokenKind::Number(number) => format!(in alloc; "number {}", number.get())?,
        TokenKind::Text(text) => format!(in alloc;
            "text [{}]",
            written_text(alloc, text)?.as_str()
        )?,
        TokenKind::Pattern(literal) => format!(in alloc;
            "pattern [{}] [{}]",
            written_text(alloc, literal.body())?.as_str(),
            written_text(alloc, literal.flags())?.as_str()
        )?,
        TokenKind::Sign(sign) => format!(in alloc; "{sign:?}")?,
    };
    Ok(format!(in alloc; "{} {place}{mark}", spelled.as_str())?)
}
