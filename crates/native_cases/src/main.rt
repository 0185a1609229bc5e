//! Built-in functions of numbers, of texts and of arrays: a table of calls with their values.
//!
//! The values are those of ECMA-262 edition 5.1, sections 15.1.2.2, 15.4.4, 15.5.4, 15.7.4.2, 15.8.2 and B.2.3, cut to
//! whole numbers. It reads them from its input, and stands on number_builtins, text_builtins and array_builtins.
#![tactic(auto)]

mod array_methods;
mod arrays;
mod joined_texts;
mod numbers;
mod texts;

use anyhow::{Result, bail};
use case_rows::written_text;
use std::alloc::Global;
use utf16_text::Text;

fn main(rt: HostRuntime) -> Result<()> {
    case_rows::run(&rt, answer)
}

fn answer(alloc: Global, part: &str, fields: &[&str]) -> Result<String> {
    match part {
        "functions of numbers" => numbers::given(alloc, fields),
        "units and places" | "parts of texts" => texts::given(alloc, fields),
        "pieces and replacements" => texts::given(alloc, fields),
        "lengths" => texts::length(alloc, fields),
        "arrays" => array_methods::given(alloc, fields),
        "joined texts" => joined_texts::joined(alloc, fields),
        _ => bail!("no part {part}"),
    }
}

fn in_quotes(alloc: Global, text: &Text) -> Result<String> {
    Ok(format!(in alloc; "'{}'", written_text(alloc, text)?.as_str())?)
}

fn word(alloc: Global, word: &str) -> Result<String> {
    Ok(String::from_str(alloc, word)?)
}
