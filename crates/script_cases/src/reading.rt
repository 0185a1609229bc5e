// What scripts read as, by what they are printed as, and each refusal at its place.
ghost use Rattle.std.specs.Prelude.{◌≤◌, length, IfOk};

use anyhow::{Result, bail, ensure};
use case_rows::text;
use js_lexer::lex;
use js_parser::{read_script, read_tokens};
use js_printer::print;
use js_tree::{ReadAnswer, Script};
use std::alloc::Global;
use utf16_text::Text;

/// The script of a field.
pub(crate) fn source_in(alloc: Global, field: &str) -> Result<Text>
    ensures { IfOk result (λ source. length source ≤ 1048576) }
{
    let source = text(alloc, field)?;
    ensure!(
        source.len() <= 1_048_576,
        "a script of at most 1,048,576 units"
    );
    Ok(source)
}

/// What is refused and where, or want of memory.
pub(crate) fn refusal(alloc: Global, answer: ReadAnswer) -> Result<String> {
    match answer {
        ReadAnswer::Refused(kind, place) => Ok(format!(in alloc; "{kind:?} at {place}")?),
        ReadAnswer::Memory => Ok(String::from_str(alloc, "out of memory")?),
    }
}

/// A script as it is printed, its statements parted by blanks in place of line feeds.
fn in_one_line(alloc: Global, script: &Script) -> Result<String> {
    let bytes = print(alloc, script)?;
    let mut line = String::new(alloc);
    for statement in std::str::from_utf8(bytes.as_slice())?.lines() {
        if !line.is_empty() {
            line.push(' ')?;
        }
        line.push_str(statement)?;
    }
    Ok(line)
}

/// A script as it is printed, or its refusal.
pub(crate) fn printed(alloc: Global, fields: &[&str]) -> Result<String> {
    let [source] = fields else {
        bail!("a script");
    };
    match read_script(alloc, &source_in(alloc, source)?) {
        Ok(script) => in_one_line(alloc, &script),
        Err(answer) => refusal(alloc, answer),
    }
}

/// Whether a script is read, or its refusal.
pub(crate) fn outcome(alloc: Global, source: &str) -> Result<String> {
    match read_script(alloc, &source_in(alloc, source)?) {
        Ok(_script) => Ok(String::from_str(alloc, "read")?),
        Err(answer) => refusal(alloc, answer),
    }
}

/// How many statements the tokens of a line are, read with so much room for nesting, or their refusal.
pub(crate) fn within_room(alloc: Global, fields: &[&str]) -> Result<String> {
    let [source, room] = fields else {
        bail!("a script and the room for nesting");
    };
    let source = source_in(alloc, source)?;
    let Ok(lexed) = lex(alloc, &source) else {
        bail!("no tokens");
    };
    match read_tokens(
        alloc,
        lexed.tokens.as_slice(),
        lexed.end,
        room.parse::<u32>()?,
    ) {
        Ok(body) => Ok(format!(in alloc; "{}", body.len())?),
        Err(answer) => refusal(alloc, answer),
    }
}
