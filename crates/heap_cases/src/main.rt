//! What values, objects and a heap do: a table of operators, conversions, calls of a heap, and the built-in objects.
//!
//! The cases are those of ECMA-262 edition 5.1, sections 8 to 11 and 15, as the profile in docs/LANGUAGE.md has them.
//! It reads them from its input, and stands on object_heap and js_convert.
#![tactic(auto)]

mod built_ins;
mod calls;
mod conversions;
mod values;

use anyhow::{Result, bail};
use std::alloc::Global;

fn main(rt: HostRuntime) -> Result<()> {
    case_rows::run(&rt, answer)
}

fn answer(alloc: Global, part: &str, fields: &[&str]) -> Result<String> {
    match part {
        "operators" | "conversions" => conversions::told(alloc, fields),
        "copied properties" => values::copied_property(alloc, fields),
        "calls of a heap" => calls::told(alloc, fields),
        "built-in objects" => built_ins::object(alloc, fields),
        "names of built-in objects" => built_ins::name(alloc, fields),
        _ => bail!("no part {part}"),
    }
}
