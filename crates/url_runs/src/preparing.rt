// A script before its runs.
ghost use Rattle.std.specs.Prelude.{◌≡◌, IfOk};

use js_interp::{Entry, Prepared};
use js_scope::Program;
use std::alloc::Global;
use utf16_text::Memory;

/// The program, loaded once for all runs for these entries, and for those that begin again. All entries of a command
/// have the same settings and fuel.
pub(crate) fn prepared<'p>(
    alloc: Global,
    program: &'p Program,
    entries: &[Entry],
) -> Result<Prepared<'p>, Memory>
    ensures { IfOk result (λ prepared. prepared.program.now ≡ program.now) }
{
    match entries.first() {
        Some(first) => Prepared::new(alloc, program, &first.settings, first.fuel),
        None => Ok(Prepared::plain(program)),
    }
}

/// The same where each entry is run once: the only run of a program loads it itself.
pub(crate) fn prepared_once<'p>(
    alloc: Global,
    program: &'p Program,
    entries: &[Entry],
) -> Result<Prepared<'p>, Memory>
    ensures { IfOk result (λ prepared. prepared.program.now ≡ program.now) }
{
    if entries.len() < 2 {
        return Ok(Prepared::plain(program));
    }
    prepared(alloc, program, entries)
}
