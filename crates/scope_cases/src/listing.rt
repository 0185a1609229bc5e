// A program in one line: each name with its bound in the order of reading, then each function with its names.
use crate::parts::{Part, Parts, put_expression, put_statement, put_statements};
use anyhow::{Result, bail};
use js_scope::Program;
use js_tree::{Bound, BoundName, Function, FunctionPart, Statement};
use std::alloc::Global;
use utf16_text::Text;

/// The most parts that are listed in a row.
const MOST_PARTS: u32 = 1_000_000;

/// A text of ASCII letters.
fn put_text(text: &Text, out: &mut String) -> Result<()> {
    for unit in text.units() {
        out.push(u8::try_from(*unit).map_or('?', char::from))?;
    }
    Ok(())
}

/// A name and where it stands: so many scopes outward and its slot there, its own scope, or the global object.
fn put_name(x: &BoundName, out: &mut String) -> Result<()> {
    out.push(' ')?;
    put_text(&x.name, out)?;
    match x.bound {
        Bound::Unbound => write!(out, "=unbound")?,
        Bound::Slot { up, slot } => write!(out, "={up}.{slot}")?,
        Bound::Own { up } => write!(out, "=own{up}")?,
        Bound::Global => write!(out, "=global")?,
    }
    Ok(())
}

fn put_part(part: &FunctionPart, out: &mut String) -> Result<()> {
    match part {
        FunctionPart::Whole(_) => write!(out, " whole")?,
        FunctionPart::Numbered(n) => write!(out, " #{n}")?,
    }
    Ok(())
}

/// Lists a part, and gives the parts that stand in it.
fn put<'p>(alloc: Global, part: Part<'p>, out: &mut String) -> Result<Parts<'p>> {
    let mut within = Vec::new(alloc);
    match part {
        Part::Name(x) => put_name(x, out)?,
        Part::Function(part) => put_part(part, out)?,
        Part::Expression(e) => put_expression(e, &mut within)?,
        Part::Statement(s) => put_statement(s, &mut within)?,
    }
    Ok(within)
}

/// The names in statements, each part before what stands behind it.
fn put_body(alloc: Global, all: &[Statement], out: &mut String) -> Result<()> {
    let mut left = Vec::new(alloc);
    put_statements(all, &mut left)?;
    left.reverse();
    for _part in 0..MOST_PARTS {
        let Some(part) = left.pop() else {
            return Ok(());
        };
        put_behind(&mut left, put(alloc, part, out)?)?;
    }
    bail!("a body of at most {MOST_PARTS} parts")
}

/// Puts parts behind others, the first of them last.
fn put_behind<'p>(left: &mut Parts<'p>, within: Parts<'p>) -> Result<()> {
    for part in within.into_iter().rev() {
        left.push(part)?;
    }
    Ok(())
}

fn put_names(names: &[BoundName], out: &mut String) -> Result<()> {
    for x in names {
        put_name(x, out)?;
    }
    Ok(())
}

fn put_texts(texts: &[Text], out: &mut String) -> Result<()> {
    for text in texts {
        out.push(' ')?;
        put_text(text, out)?;
    }
    Ok(())
}

/// A function: its own name, its parameters, the names of its scope, and its body.
fn put_function(alloc: Global, f: &Function, out: &mut String) -> Result<()> {
    write!(out, " |")?;
    if let Some(own) = &f.name {
        put_name(own, out)?;
    }
    write!(out, " (")?;
    put_names(f.parameters.as_slice(), out)?;
    write!(out, " ) {{")?;
    put_texts(f.names.as_slice(), out)?;
    write!(out, " }}")?;
    put_body(alloc, f.body.as_slice(), out)
}

/// A program, in one line.
pub fn listing(alloc: Global, program: &Program) -> Result<String> {
    let mut out = String::new(alloc);
    put_body(alloc, program.body.as_slice(), &mut out)?;
    for f in program.functions.as_slice() {
        put_function(alloc, f, &mut out)?;
    }
    Ok(out)
}
