//! The tokens of scripts, what scripts read as and are printed as, and where they are refused: a table of scripts.
//!
//! The cases are those of ECMA-262 edition 5.1, sections 7.9 and 11 to 14, as the profile in docs/LANGUAGE.md has them.
//! It reads them from its input, and stands on js_lexer, js_parser and js_printer.
#![tactic(auto)]

mod nesting;
mod reading;
mod tokens;

use anyhow::{Result, bail};
use std::alloc::Global;

fn main(rt: HostRuntime) -> Result<()> {
    case_rows::run(&rt, answer)
}

fn answer(alloc: Global, part: &str, fields: &[&str]) -> Result<String> {
    match part {
        "tokens" => tokens::of_script(alloc, fields),
        "expressions" | "statements" => reading::printed(alloc, fields),
        "refused expressions" | "refused statements" | "refused forms" => {
            reading::printed(alloc, fields)
        }
        "nested" => nesting::outcome(alloc, fields),
        "nested parts" => nesting::outcomes_at_limit(alloc, fields),
        "edges of rows" => nesting::outcome_at_end(alloc, fields),
        "room" => reading::within_room(alloc, fields),
        _ => bail!("no part {part}"),
    }
}
