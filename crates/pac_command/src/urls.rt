// The batch that a command is for.
ghost use Rattle.std.specs.Prelude.{◌≡◌, ◌≤◌, ◌∷◌, [], length, IfOk, map};
ghost use Rattle.js_interp.specs.Answers.{entry_of};
ghost use Rattle.pac_ports.specs.Files.{FilesState};
ghost use Rattle.pac_words.specs.Views.{source_view};
ghost use Rattle.batch_text.specs.Batch.{entry_seen};
ghost use Rattle.batch_text.specs.View.{seen_of};
ghost use Rattle.pac_command.specs.Steps.{IsStep, ok_as};
ghost use Rattle.pac_command.specs.Urls as spec;
ghost use Rattle.pac_command.specs.Urls.{batch_then, entries_for, url_then, urls_from};
ghost use Rattle.utf16_text.specs.declared.limits.TheConstants.{LONGEST_FILE};

use crate::early::Early;
use crate::given::Given;
use crate::inputs::read_file;
use crate::output::{refused, refused_line};
use batch_text::{Batch, BatchAnswer, BatchKind, BatchLine, View, ViewAnswer, read_batch, view};
use js_interp::Entry;
use pac_clocks::shown;
use pac_ports::Files;
use pac_words::Source;
use std::alloc::Global;
use utf16_text::Memory;

/// What a command is for: one URL at the moment of the command, or a batch.
pub(crate) fn read_urls<F: Files>(
    alloc: Global,
    from: &Source<'_>,
    given: &Given,
    files: &mut F,
) -> Result<Batch, Early>
    ensures { IsStep (urls_from given.now (source_view from.now)) (F.state files.old) (ok_as (map entry_seen) result) (F.state files.new) }
{
    match from {
        Source::Url(url) => one_url(alloc, url, given),
        Source::Batch(file) => {
            let bytes = read_file(alloc, "batch", file, files)?;
            batch_in(alloc, &bytes, given)
        }
    }
}

/// One URL, at the moment of the command.
fn one_url(alloc: Global, url: &str, given: &Given) -> Result<Batch, Early>
    ensures { (files : FilesState) → IsStep (url_then given.now url.now) files (ok_as (map entry_seen) result) files }
{
    match view(alloc, url) {
        Ok(seen) => Ok(only(alloc, BatchLine::Get(given.start, seen))?),
        Err(ViewAnswer::BadUrl) => {
            let output = refused(alloc, "url BadUrl")?;
            Err(Early::Said(output))
        }
        Err(ViewAnswer::Memory) => Err(Early::Memory),
    }
}

fn only(alloc: Global, line: BatchLine) -> Result<Batch, Memory>
    ensures { IfOk result (λ batch. batch ≡ line ∷ []) }
{
    let mut batch = Batch::new(alloc);
    batch.push(alloc, line)?;
    Ok(batch)
}

/// The batch of these bytes.
fn batch_in(alloc: Global, bytes: &[u8], given: &Given) -> Result<Batch, Early>
    requires { length bytes.now ≤ LONGEST_FILE }
    ensures { (files : FilesState) → IsStep (batch_then given.now bytes.now) files (ok_as (map entry_seen) result) files }
{
    match read_batch(alloc, bytes, given.start) {
        Ok(batch) => Ok(batch),
        Err(BatchAnswer::Refused(kind, number)) => {
            let output = refused_line(alloc, "batch", number, batch_kind(kind))?;
            Err(Early::Said(output))
        }
        Err(BatchAnswer::Memory) => Err(Early::Memory),
    }
}

fn batch_kind(kind: BatchKind) -> &'static str
    ensures { result.now ≡ spec.batch_kind kind }
{
    match kind {
        BatchKind::BadLine => "BadLine",
        BatchKind::BadUrl => "BadUrl",
        BatchKind::BackwardTime => "BackwardTime",
        BatchKind::TooMany => "TooMany",
    }
}

/// What the runs for the URLs of a batch are for, in their order.
pub(crate) fn entries_for(alloc: Global, batch: &Batch, given: &Given) -> Result<Vec<Entry>, Memory>
    ensures { IfOk result (λ entries. map entry_of entries.items ≡ entries_for given.now (map entry_seen batch.now)) }
{
    let mut entries = Vec::new(alloc);
    for line in batch.as_slice() {
        if let BatchLine::Get(moment, seen) = line {
            entries.push(entry_at(alloc, given, *moment, seen)?)?;
        }
    }
    Ok(entries)
}

/// What a run is for: what a script sees of a URL, at a moment in seconds since 1970 in UTC.
fn entry_at(alloc: Global, given: &Given, moment: i64, seen: &View) -> Result<Entry, Memory>
    ensures { IfOk result (λ entry. entry_of entry ≡ spec.entry_at given.now moment (seen_of seen.now)) }
{
    let now = shown(alloc, moment, given.zone)?;
    Ok(Entry {
        url: seen.url.copy(alloc)?,
        host: seen.host.copy(alloc)?,
        now,
        settings: given.settings,
        fuel: given.fuel,
    })
}
