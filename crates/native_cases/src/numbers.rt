// What the functions of numbers give.
use crate::{in_quotes, word};
use NumberMethod::{Abs, Ceil, Floor, Max, Min, ParseInt, Round, ToString};
use anyhow::{Context, Result, bail};
use case_rows::{Sample, samples};
use number_builtins::{NumberArg, NumberMethod, NumberResult, call_number};
use std::alloc::Global;

const METHODS: [NumberMethod; 8] = [Abs, Max, Min, Floor, Ceil, Round, ParseInt, ToString];

fn method_named(alloc: Global, name: &str) -> Result<NumberMethod> {
    for method in METHODS {
        if format!(in alloc; "{method:?}")?.as_str() == name {
            return Ok(method);
        }
    }
    bail!("no function {name}")
}

fn arguments(alloc: Global, fields: &[&str]) -> Result<Vec<NumberArg>> {
    let mut all = Vec::new(alloc);
    for sample in samples(alloc, fields)? {
        all.push(match sample {
            Sample::Undefined => NumberArg::Absent,
            Sample::Number(number) => NumberArg::Number(number),
            Sample::Text(text) => NumberArg::Text(text),
            _ => bail!("a number, a text or undefined"),
        })?;
    }
    Ok(all)
}

/// What a function gives on arguments.
pub(crate) fn given(alloc: Global, fields: &[&str]) -> Result<String> {
    let (method, args) = fields.split_first().context("a function and arguments")?;
    let args = arguments(alloc, args)?;
    match call_number(alloc, method_named(alloc, method)?, &args)? {
        NumberResult::Number(number) => Ok(format!(in alloc; "{}", number.get())?),
        NumberResult::Text(text) => in_quotes(alloc, &text),
        NumberResult::Range => word(alloc, "Range"),
        NumberResult::NotANumber => word(alloc, "NotANumber"),
        NumberResult::BadRadix => word(alloc, "BadRadix"),
    }
}
