// What `pac-lint` does: it reads a script and lists what it uses that isn't here, or that can't be meant.
ghost use Rattle.std.specs.Prelude.{◌≡◌, ◌≤◌, IfOk, length, map, string_bytes};
ghost use Rattle.utf16_text.specs.Decode.{decoded_units};
ghost use Rattle.utf16_text.specs.declared.limits.TheConstants.{LONGEST_FILE};
ghost use Rattle.pac_plan.specs.Plan.{Outside, with_files};
ghost use Rattle.pac_plan.specs.Follows.{IsUnlessMemory};
ghost use Rattle.pac_plan.specs.OutputView.{made};
ghost use Rattle.pac_lint.specs.Listing as spec;
ghost use Rattle.pac_lint.specs.Plans.{Follows, Serves};
ghost use Rattle.pac_lint.specs.Plans as plans;

use js_forms::refusal_line;
use js_lint::{findings, write_findings};
use js_parser::read_script;
use js_scope::resolve;
use js_tree::{ReadAnswer, Script};
use pac_plan::{Output, Status, give, line};
use pac_ports::{Files, FilesAnswer, Sink};
use std::alloc::Global;
use utf16_text::{LONGEST_FILE, Memory, Text};

/// Does what the words behind the program's name ask for, writes the output to `out` and returns its status: reads the
/// script of the one file that they name, and lists all findings of it.
///
/// A process is expected to end with it: the memory of a script's tree is left to the system.
pub fn lint<F: Files, K: Sink>(
    alloc: Global,
    words: &Vec<String>,
    files: &mut F,
    out: &mut K,
) -> Status
    // The plan of the words is followed and its output written, with the order and completeness of every plan.
    ensures { (o : Outside) → Serves (plans.plan_of (map string_bytes words.now.items)) (with_files o (F.state files.old)) (with_files o (F.state files.new)) (K.state out.old) (K.state out.new) result }
{
    give(out, done(alloc, words.as_slice(), files))
}

// What the words come to.
fn done<F: Files>(alloc: Global, words: &[String], files: &mut F) -> Result<Output, Memory>
    ensures { (o : Outside) → Follows (plans.plan_of (map string_bytes words.now)) (with_files o (F.state files.old)) (with_files o (F.state files.new)) (made result) }
{
    match words {
        [name] => done_with(alloc, name.as_str(), files),
        _ => faulty_usage(alloc),
    }
}

// What a single word comes to.
fn done_with<F: Files>(alloc: Global, name: &str, files: &mut F) -> Result<Output, Memory>
    ensures { (o : Outside) → Follows (plans.plan_for name.now) (with_files o (F.state files.old)) (with_files o (F.state files.new)) (made result) }
{
    if begins_with_dash(name) {
        return faulty_usage(alloc);
    }
    listed_file(alloc, name, files)
}

fn faulty_usage(alloc: Global) -> Result<Output, Memory>
    ensures { IsUnlessMemory plans.usage (made result) }
{
    line(alloc, Status::Usage, "usage: pac-lint FILE", "", "")
}

fn begins_with_dash(word: &str) -> bool
    ensures { result ≡ plans.begins_with_dash word.now }
{
    match word.as_bytes() {
        [first, ..] => *first == b'-',
        [] => false,
    }
}

fn listed_file<F: Files>(alloc: Global, name: &str, files: &mut F) -> Result<Output, Memory>
    ensures { (o : Outside) → Follows (plans.lint_plan name.now) (with_files o (F.state files.old)) (with_files o (F.state files.new)) (made result) }
{
    match files.read_all(alloc, name, LONGEST_FILE) {
        Ok(bytes) => listing(alloc, &bytes),
        Err(FilesAnswer::Failed) => line(alloc, Status::ReadFault, "fault read ", "script", ""),
        Err(FilesAnswer::TooLong) => line(alloc, Status::Refused, "refused ", "script", " TooLong"),
        Err(FilesAnswer::Memory) => Err(Memory),
    }
}

// The output for a file of these bytes.
fn listing(alloc: Global, bytes: &[u8]) -> Result<Output, Memory>
    requires { length bytes.now ≤ LONGEST_FILE }
    ensures { IsUnlessMemory (spec.listing (decoded_units bytes.now)) (made result) }
{
    let source = decoded(alloc, bytes)?;
    let text = lines_of(alloc, &source)?;
    let status = status_of(&text);
    Ok(Output { status, text })
}

// A silent listing is good.
fn status_of(text: &[u8]) -> Status
    ensures { result ≡ spec.status_of text.now }
{
    match text {
        [] => Status::Good,
        [_, ..] => Status::ScriptFault,
    }
}

// The text of a file, which has no more units than the file has bytes.
fn decoded(alloc: Global, bytes: &[u8]) -> Result<Text, Memory>
    ensures text { IfOk result (λ t. t ≡ decoded_units bytes.now) }
    ensures fits { IfOk result (λ t. length t ≤ length bytes.now) }
{
    let text = Text::from_bytes(alloc, bytes)?;
    Ok(text)
}

// The lines of the findings of a script, or the one of its refusal.
fn lines_of(alloc: Global, source: &Text) -> Result<Vec<u8>, Memory>
    requires { length source.now ≤ LONGEST_FILE }
    ensures { IfOk result (λ text. text.items ≡ spec.lines_of_text source.now) }
{
    match read_script(alloc, source) {
        Ok(script) => lines_of_script(alloc, script),
        Err(ReadAnswer::Refused(kind, place)) => refusal_line(alloc, kind, place, source),
        Err(ReadAnswer::Memory) => Err(Memory),
    }
}

// The lines of the findings of a script.
fn lines_of_script(alloc: Global, script: Script) -> Result<Vec<u8>, Memory>
    ensures { IfOk result (λ text. text.items ≡ spec.lines_of_script script) }
{
    let program = resolve(alloc, script)?;
    let found = findings(alloc, &program)?;
    let mut text = Vec::new(alloc);
    write_findings(alloc, found.as_slice(), &mut text)?;
    Ok(text)
}
