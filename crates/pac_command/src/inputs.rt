// What a command reads: a script, a file of names, and URLs.
ghost use Rattle.std.specs.Prelude.{◌≡◌, ◌≤◌, length, IfOk};
ghost use Rattle.utf16_text.specs.Decode.{decoded_units};
ghost use Rattle.pac_ports.specs.Files.{FilesState};
ghost use Rattle.pac_plan.specs.Plan.{read};
ghost use Rattle.pac_command.specs.Steps.{IsStep, items_of};
ghost use Rattle.pac_command.specs.Scripts.{WasRead, script_from, script_then};
ghost use Rattle.pac_command.specs.Names as spec;
ghost use Rattle.pac_command.specs.Names.{names_from, names_then};
ghost use Rattle.utf16_text.specs.declared.limits.TheConstants.{LONGEST_FILE};

use crate::Status;
use crate::early::Early;
use crate::output::{refused_line, refused_script};
use answer_table::AnswerTable;
use batch_text::{NamesAnswer, NamesKind, read_names};
use js_parser::read_script;
use js_tree::{ReadAnswer, Script};
use pac_plan::line;
use pac_ports::{Files, FilesAnswer};
use std::alloc::Global;
use utf16_text::{LONGEST_FILE, Memory, Text};

/// The bytes of the file of this kind and name.
pub(crate) fn read_file<F: Files>(
    alloc: Global,
    kind: &str,
    name: &str,
    files: &mut F,
) -> Result<Vec<u8>, Early>
    ensures step { IsStep (read kind.now name.now) (F.state files.old) (items_of result) (F.state files.new) }
    ensures within { IfOk result (λ bytes. length bytes.items ≤ LONGEST_FILE) }
{
    match files.read_all(alloc, name, LONGEST_FILE) {
        Ok(bytes) => Ok(bytes),
        Err(FilesAnswer::Failed) => {
            let output = line(alloc, Status::ReadFault, "fault read ", kind, "")?;
            Err(Early::Said(output))
        }
        Err(FilesAnswer::TooLong) => {
            let output = line(alloc, Status::Refused, "refused ", kind, " TooLong")?;
            Err(Early::Said(output))
        }
        Err(FilesAnswer::Memory) => Err(Early::Memory),
    }
}

/// The script in the file of this name.
pub(crate) fn read_script_file<F: Files>(
    alloc: Global,
    name: &str,
    files: &mut F,
) -> Result<Script, Early>
    ensures step { IsStep (script_from name.now) (F.state files.old) result (F.state files.new) }
    ensures read { IfOk result WasRead }
{
    let bytes = read_file(alloc, "script", name, files)?;
    script_in(alloc, &bytes)
}

/// The script that these bytes spell.
fn script_in(alloc: Global, bytes: &[u8]) -> Result<Script, Early>
    requires { length bytes.now ≤ LONGEST_FILE }
    ensures step { (files : FilesState) → IsStep (script_then bytes.now) files result files }
    ensures read { IfOk result WasRead }
{
    let source = decoded(alloc, bytes)?;
    match read_script(alloc, &source) {
        Ok(script) => Ok(script),
        Err(ReadAnswer::Refused(kind, place)) => {
            let output = refused_script(alloc, kind, place)?;
            Err(Early::Said(output))
        }
        Err(ReadAnswer::Memory) => Err(Early::Memory),
    }
}

/// The text of a file, which has no more units than the file has bytes.
fn decoded(alloc: Global, bytes: &[u8]) -> Result<Text, Memory>
    ensures text { IfOk result (λ t. t ≡ decoded_units bytes.now) }
    ensures fits { IfOk result (λ t. length t ≤ length bytes.now) }
{
    let text = Text::from_bytes(alloc, bytes)?;
    Ok(text)
}

/// The answers in the file of names of this name.
pub(crate) fn read_names_file<F: Files>(
    alloc: Global,
    name: &str,
    files: &mut F,
) -> Result<AnswerTable, Early>
    ensures { IsStep (names_from name.now) (F.state files.old) result (F.state files.new) }
{
    let bytes = read_file(alloc, "names", name, files)?;
    answers_in(alloc, &bytes)
}

/// The answers that these bytes tell.
fn answers_in(alloc: Global, bytes: &[u8]) -> Result<AnswerTable, Early>
    requires { length bytes.now ≤ LONGEST_FILE }
    ensures { (files : FilesState) → IsStep (names_then bytes.now) files result files }
{
    match read_names(alloc, bytes) {
        Ok(answers) => Ok(answers),
        Err(NamesAnswer::Refused(kind, number)) => {
            let output = refused_line(alloc, "names", number, names_kind(kind))?;
            Err(Early::Said(output))
        }
        Err(NamesAnswer::Memory) => Err(Early::Memory),
    }
}

fn names_kind(kind: NamesKind) -> &'static str
    ensures { result.now ≡ spec.names_kind kind }
{
    match kind {
        NamesKind::BadLine => "BadLine",
        NamesKind::Twice => "Twice",
    }
}
