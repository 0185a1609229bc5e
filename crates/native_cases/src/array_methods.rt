// What the methods of arrays give, and what they leave.
use crate::arrays::Bench;
use ArrayMethod::{
    Concat, IndexOf, LastIndexOf, Pop, Push, Reverse, Shift, Slice, Splice, Unshift,
};
use anyhow::{Result, bail};
use array_builtins::{ArrayMethod, call_array};
use std::alloc::Global;

const METHODS: [ArrayMethod; 10] = [
    Push,
    Pop,
    Shift,
    Unshift,
    Concat,
    Slice,
    Splice,
    Reverse,
    IndexOf,
    LastIndexOf,
];

fn method_named(alloc: Global, name: &str) -> Result<ArrayMethod> {
    for method in METHODS {
        if format!(in alloc; "{method:?}")?.as_str() == name {
            return Ok(method);
        }
    }
    bail!("no method {name}")
}

/// What a method gives on a receiver and arguments, and the receiver after it.
pub(crate) fn given(alloc: Global, fields: &[&str]) -> Result<String> {
    let [method, receiver, args @ ..] = fields else {
        bail!("a method, a receiver and arguments");
    };
    let mut bench = Bench::new(alloc, receiver)?;
    let given = called(alloc, &mut bench, method_named(alloc, method)?, args)?;
    let after = bench.written_array(alloc, bench.receiver)?;
    Ok(format!(in alloc; "{}; {}", given.as_str(), after.as_str())?)
}

fn called(alloc: Global, bench: &mut Bench, which: ArrayMethod, args: &[&str]) -> Result<String> {
    let args = bench.values(alloc, args)?;
    match call_array(alloc, &mut bench.heap, which, bench.receiver, &args) {
        Ok(value) => bench.written(alloc, &value),
        Err(answer) => Ok(format!(in alloc; "{answer:?}")?),
    }
}
