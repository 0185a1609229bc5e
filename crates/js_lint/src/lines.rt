// The lines of findings.
ghost use Rattle.std.specs.Prelude.{◌≡◌, ◌++◌, OnOk};
ghost use Rattle.js_lint.specs.Lines as spec;

use crate::Finding;
use js_tree::Place;
use std::alloc::Global;
use utf16_text::{Memory, Text};

/// Appends a line for each finding, in their order: `LINE:COLUMN: NAME: ADVICE`, in ASCII, other units of a name
/// escaped. After Memory a part of them may stand there.
pub fn write_findings(alloc: Global, found: &[Finding], out: &mut Vec<u8>) -> Result<(), Memory>
    ensures { OnOk result (out.new.items ≡ out.old.items ++ spec.lines_of found.now) }
{
    let mut left = found;
    while let [finding, rest @ ..] = left {
        write_finding(alloc, finding, out)?;
        left = rest;
    }
    Ok(())
}

fn write_finding(alloc: Global, finding: &Finding, out: &mut Vec<u8>) -> Result<(), Memory>
    ensures { OnOk result (out.new.items ≡ out.old.items ++ spec.line_of finding.now) }
{
    write_place(alloc, finding.place, out)?;
    out.extend_from_slice(b": ")?;
    write_name(alloc, finding, out)?;
    out.extend_from_slice(b": ")?;
    out.extend_from_slice(finding.advice.text().as_bytes())?;
    out.extend_from_slice(b"\n")?;
    Ok(())
}

fn write_place(alloc: Global, place: Place, out: &mut Vec<u8>) -> Result<(), Memory>
    ensures { OnOk result (out.new.items ≡ out.old.items ++ spec.place_text place) }
{
    let text = format!(in alloc; "{place}")?;
    out.extend_from_slice(text.as_bytes())?;
    Ok(())
}

fn write_name(alloc: Global, finding: &Finding, out: &mut Vec<u8>) -> Result<(), Memory>
    ensures { OnOk result (out.new.items ≡ out.old.items ++ spec.name_text finding.now) }
{
    write_object(alloc, &finding.object, out)?;
    finding.name.escape_into(alloc, out, false)
}

fn write_object(alloc: Global, object: &Option<Text>, out: &mut Vec<u8>) -> Result<(), Memory>
    ensures { OnOk result (out.new.items ≡ out.old.items ++ spec.object_text object.now) }
{
    let Some(object) = object else {
        return Ok(());
    };
    object.escape_into(alloc, out, false)?;
    out.extend_from_slice(b".")?;
    Ok(())
}
