// What a call reads: a script, names and a URL.
ghost use Rattle.std.specs.Prelude.{◌≡◌, ◌≤◌, IfOk, length};
ghost use Rattle.utf16_text.specs.Decode.{decoded_units};
ghost use Rattle.utf16_text.specs.declared.limits.TheConstants.{LONGEST_FILE};
ghost use Rattle.batch_text.specs.View.{seen_of};
ghost use Rattle.pac_command.specs.Names as commands;
ghost use Rattle.pac_command.specs.Scripts as scripts;
ghost use Rattle.pac_command.specs.Scripts.{WasRead};
ghost use Rattle.library_calls.specs.Told.{Reads, Tells, read_as, told_of};
ghost use Rattle.library_calls.specs.Inputs as spec;

use crate::early::Early;
use crate::told::{Status, Told};
use answer_table::AnswerTable;
use batch_text::{NamesAnswer, NamesKind, View, ViewAnswer, read_told_names, view};
use js_parser::read_script;
use js_tree::{Place, ReadAnswer, ReadKind, Script};
use std::alloc::Global;
use std::str;
use utf16_text::{LONGEST_FILE, Memory, Text};

/// The script that these bytes spell.
pub(crate) fn script_in(alloc: Global, bytes: &[u8]) -> Result<Script, Early>
    ensures reads { Reads (spec.script_in bytes.now) result }
    ensures read { IfOk result WasRead }
{
    if bytes.len() > LONGEST_FILE {
        return Err(Early::Told(too_long(alloc)));
    }
    let source = decoded(alloc, bytes)?;
    match read_script(alloc, &source) {
        Ok(script) => Ok(script),
        Err(ReadAnswer::Refused(kind, place)) => Err(Early::Told(refused_script(
            alloc, kind, place,
        )?)),
        Err(ReadAnswer::Memory) => Err(Early::Memory),
    }
}

// The text of a file, which has no more units than the file has bytes.
fn decoded(alloc: Global, bytes: &[u8]) -> Result<Text, Memory>
    ensures text { IfOk result (λ t. t ≡ decoded_units bytes.now) }
    ensures fits { IfOk result (λ t. length t ≤ length bytes.now) }
{
    let text = Text::from_bytes(alloc, bytes)?;
    Ok(text)
}

/// The answers that these bytes tell, each name whole: of one that has a line for one family alone, the other has no
/// address.
pub(crate) fn names_in(alloc: Global, bytes: &[u8]) -> Result<AnswerTable, Early>
    ensures { Reads (spec.names_in bytes.now) result }
{
    if bytes.len() > LONGEST_FILE {
        return Err(Early::Told(too_long(alloc)));
    }
    match read_told_names(alloc, bytes) {
        Ok(answers) => Ok(answers),
        Err(NamesAnswer::Refused(kind, number)) => Err(Early::Told(refused_names(
            alloc, kind, number,
        )?)),
        Err(NamesAnswer::Memory) => Err(Early::Memory),
    }
}

/// What a script sees of the URL that these bytes spell.
pub(crate) fn url_in(alloc: Global, bytes: &[u8]) -> Result<View, Early>
    ensures { Reads (spec.url_in bytes.now) (read_as seen_of result) }
{
    let Ok(text) = str::from_utf8(bytes) else {
        return Err(Early::Told(refused_url(alloc)?));
    };
    match view(alloc, text) {
        Ok(seen) => Ok(seen),
        Err(ViewAnswer::BadUrl) => Err(Early::Told(refused_url(alloc)?)),
        Err(ViewAnswer::Memory) => Err(Early::Memory),
    }
}

fn too_long(alloc: Global) -> Told
    ensures { told_of result ≡ spec.too_long }
{
    Told {
        status: Status::TooLong,
        bytes: Vec::new(alloc),
    }
}

fn refused_script(alloc: Global, kind: ReadKind, place: Place) -> Result<Told, Memory>
    ensures { Tells (spec.refused_script (kind, place)) result }
{
    let name = script_kind(kind);
    let line = format!(in alloc; "refused script {place} {name}\n")?;
    Ok(Told {
        status: Status::BadScript,
        bytes: line.into_bytes(),
    })
}

fn refused_names(alloc: Global, kind: NamesKind, number: u32) -> Result<Told, Memory>
    ensures { Tells (spec.refused_names (kind, number)) result }
{
    let name = names_kind(kind);
    let line = format!(in alloc; "refused names {number} {name}\n")?;
    Ok(Told {
        status: Status::BadNames,
        bytes: line.into_bytes(),
    })
}

fn refused_url(alloc: Global) -> Result<Told, Memory>
    ensures { Tells spec.refused_url result }
{
    let mut line = Vec::new(alloc);
    line.extend_from_slice(b"refused url BadUrl\n")?;
    Ok(Told {
        status: Status::BadUrl,
        bytes: line,
    })
}

fn script_kind(kind: ReadKind) -> &'static str
    ensures { result.now ≡ scripts.kind_name kind }
{
    match kind {
        ReadKind::BadToken => "BadToken",
        ReadKind::Unexpected => "Unexpected",
        ReadKind::TooDeep => "TooDeep",
        ReadKind::FractionLiteral => "FractionLiteral",
        ReadKind::Unsupported => "Unsupported",
    }
}

fn names_kind(kind: NamesKind) -> &'static str
    ensures { result.now ≡ commands.names_kind kind }
{
    match kind {
        NamesKind::BadLine => "BadLine",
        NamesKind::Twice => "Twice",
    }
}
