// What the methods of texts give.
ghost use Rattle.std.specs.Prelude.{◌≤◌, length};

use crate::{in_quotes, word};
use TextMethod::{
    CharAt, CharCodeAt, Concat, IndexOf, LastIndexOf, Replace, Slice, Split, Substr, Substring,
    ToLowerCase, ToString, ToUpperCase, Trim, ValueOf,
};
use anyhow::{Result, bail, ensure};
use case_rows::{Sample, samples};
use std::alloc::Global;
use text_builtins::{TextArg, TextMethod, TextResult, call_text};
use utf16_text::{Text, TextList};

const METHODS: [TextMethod; 15] = [
    CharAt,
    CharCodeAt,
    Concat,
    IndexOf,
    LastIndexOf,
    Replace,
    Slice,
    Split,
    Substr,
    Substring,
    ToLowerCase,
    ToString,
    ToUpperCase,
    Trim,
    ValueOf,
];

fn method_named(alloc: Global, name: &str) -> Result<TextMethod> {
    for method in METHODS {
        if format!(in alloc; "{method:?}")?.as_str() == name {
            return Ok(method);
        }
    }
    bail!("no method {name}")
}

fn arguments(alloc: Global, fields: &[&str]) -> Result<Vec<TextArg>> {
    let mut all = Vec::new(alloc);
    for sample in samples(alloc, fields)? {
        all.push(match sample {
            Sample::Undefined => TextArg::Absent,
            Sample::Number(number) => TextArg::Number(number),
            Sample::Text(text) => TextArg::Text(text),
            _ => bail!("a number, a text or undefined"),
        })?;
    }
    Ok(all)
}

fn called(alloc: Global, method: &str, receiver: &Text, args: &[&str]) -> Result<TextResult> {
    ensure!(receiver.len() <= 262_144, "a text of at most 262,144 units");
    let args = arguments(alloc, args)?;
    Ok(call_text(alloc, method_named(alloc, method)?, receiver, &args)?)
}

/// What a method gives on a receiver and arguments.
pub(crate) fn given(alloc: Global, fields: &[&str]) -> Result<String> {
    let [method, receiver, args @ ..] = fields else {
        bail!("a method, a receiver and arguments");
    };
    let Sample::Text(receiver) = Sample::read(alloc, receiver)? else {
        bail!("a receiver in quotes");
    };
    match called(alloc, method, &receiver, args)? {
        TextResult::Text(text) => in_quotes(alloc, &text),
        TextResult::Texts(texts) => written_list(alloc, &texts),
        TextResult::Number(number) => Ok(format!(in alloc; "{}", number.get())?),
        TextResult::NotANumber => word(alloc, "NotANumber"),
        TextResult::TooLong => word(alloc, "TooLong"),
    }
}

/// The length of what a method gives on a text of so many units `a`.
pub(crate) fn length(alloc: Global, fields: &[&str]) -> Result<String> {
    let [method, units, args @ ..] = fields else {
        bail!("a method, a length and arguments");
    };
    let receiver = text_of_length(alloc, units)?;
    match called(alloc, method, &receiver, args)? {
        TextResult::Text(text) => Ok(format!(in alloc; "{}", text.len())?),
        TextResult::TooLong => word(alloc, "TooLong"),
        _ => bail!("no text"),
    }
}

/// A text of so many units `a`.
pub(crate) fn text_of_length(alloc: Global, units: &str) -> Result<Text> {
    Ok(Text::from_vec(vec![in alloc; 97u16; units.parse::<usize>()?]?)?)
}

fn written_list(alloc: Global, texts: &TextList) -> Result<String> {
    let mut all = word(alloc, "[")?;
    for (at, text) in texts.as_slice().iter().enumerate() {
        if at > 0 {
            all.push_str(", ")?;
        }
        all.push_str(in_quotes(alloc, text)?.as_str())?;
    }
    all.push(']')?;
    Ok(all)
}
