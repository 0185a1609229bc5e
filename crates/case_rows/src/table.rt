// Tables, and which of their rows hold.
use anyhow::{Context, Result, bail, ensure};
use std::alloc::Global;

enum Line<'a> {
    Comment,
    Part(&'a str),
    /// The fields, and what is to come of them.
    Row(&'a str, &'a str),
}

fn line_in(text: &str) -> Result<Line<'_>> {
    if text.is_empty() || text.starts_with('#') {
        return Ok(Line::Comment);
    }
    if let Some((fields, wanted)) = text.split_once(" => ") {
        return Ok(Line::Row(fields, wanted));
    }
    if let Some(fields) = text.strip_suffix(" =>") {
        return Ok(Line::Row(fields, ""));
    }
    match text.strip_prefix("part ") {
        Some(name) => Ok(Line::Part(name)),
        None => bail!("neither a part nor a row: {text}"),
    }
}

/// A part of a table: how many rows it has so far, and how many of them hold.
#[derive(Drop)]
struct Part {
    name: String,
    rows: u64,
    held: u64,
}

impl Part {
    fn named(alloc: Global, name: &str) -> Result<Part> {
        let name = String::from_str(alloc, name)?;
        Ok(Part {
            name,
            rows: 0,
            held: 0,
        })
    }

    /// Counts a row, and tells it where something else came than was wanted.
    fn count(&mut self, rt: &impl Print, line: usize, wanted: &str, came: &str) -> Result<()> {
        self.rows = self.rows.saturating_add(1);
        if came == wanted {
            self.held = self.held.saturating_add(1);
        } else {
            println!(rt; "line {line}: wanted {wanted}, came {came}")?;
        }
        Ok(())
    }
}

/// Reads a table from the input, and tells each row of which something else comes than is wanted; then, of each part,
/// how many rows hold. It is an error where one does not. The answer to a row is given its part and its fields; what
/// comes of a row whose answer is an error is that error.
pub fn run<R: Input + AllocGlobal + Print, F: Fn(Global, &str, &[&str]) -> Result<String>>(
    rt: &R,
    answer: F,
) -> Result<()>
    requires { F.IsAlwaysCallable answer }
{
    let alloc = rt.alloc();
    let mut parts: Vec<Part> = Vec::new(alloc);
    for (before, line) in rt.lines(alloc).enumerate() {
        let line = line?;
        match line_in(line.as_str())? {
            Line::Comment => {}
            Line::Part(name) => parts.push(Part::named(alloc, name)?)?,
            Line::Row(fields, wanted) => {
                let part = parts.last_mut().context("a row before the first part")?;
                let came = came_of(alloc, &answer, part.name.as_str(), fields)?;
                part.count(rt, before.saturating_add(1), wanted, came.as_str())?;
            }
        }
    }
    tell(rt, &parts)
}

fn came_of<F: Fn(Global, &str, &[&str]) -> Result<String>>(
    alloc: Global,
    answer: &F,
    part: &str,
    fields: &str,
) -> Result<String>
    requires { F.IsAlwaysCallable answer.now }
{
    let fields: Vec<&str> = fields.split('\t').collect(alloc)?;
    match answer(alloc, part, fields.as_slice()) {
        Ok(came) => Ok(came),
        Err(error) => Ok(format!(in alloc; "an error: {error}")?),
    }
}

fn tell(rt: &impl Print, parts: &[Part]) -> Result<()> {
    for part in parts {
        let Part { name, rows, held } = part;
        println!(rt; "{name}: {held} of {rows} rows hold")?;
    }
    ensure!(
        parts.iter().all(|part| part.held == part.rows),
        "a row does not hold"
    );
    Ok(())
}
