// What `resolve` and `map` run, as they read it.
ghost use Rattle.pac_words.specs.Views.{source_view};
ghost use Rattle.url_runs.specs.Runs.{seen_work};
ghost use Rattle.pac_command.specs.Scripts.{WasRead};
ghost use Rattle.pac_command.specs.Steps.{IsStep, ok_as};
ghost use Rattle.pac_command.specs.Work.{mapping_from, seen_mapping, urls_with, work_from};

use crate::early::Early;
use crate::given::Given;
use crate::inputs::{read_names_file, read_script_file};
use crate::urls::{entries_for, read_urls};
use answer_table::AnswerTable;
use js_scope::resolve as resolve_names;
use js_tree::Script;
use pac_ports::Files;
use pac_words::Source;
use std::alloc::Global;
use url_runs::Work;

/// Reads a script, and then its URLs.
pub(crate) fn read_work<F: Files>(
    alloc: Global,
    script: &str,
    from: &Source<'_>,
    given: &Given,
    files: &mut F,
) -> Result<Work, Early>
    ensures { IsStep (work_from given.now script.now (source_view from.now)) (F.state files.old) (ok_as seen_work result) (F.state files.new) }
{
    let script = read_script_file(alloc, script, files)?;
    with_urls(alloc, script, from, given, files)
}

/// Reads a script, then a file of names, and then the script's URLs.
pub(crate) fn read_mapping<F: Files>(
    alloc: Global,
    names: &str,
    script: &str,
    from: &Source<'_>,
    given: &Given,
    files: &mut F,
) -> Result<(AnswerTable, Work), Early>
    ensures { IsStep (mapping_from given.now names.now script.now (source_view from.now)) (F.state files.old) (ok_as seen_mapping result) (F.state files.new) }
{
    let script = read_script_file(alloc, script, files)?;
    let answers = read_names_file(alloc, names, files)?;
    let work = with_urls(alloc, script, from, given, files)?;
    Ok((answers, work))
}

// A script that was read, with its URLs.
fn with_urls<F: Files>(
    alloc: Global,
    script: Script,
    from: &Source<'_>,
    given: &Given,
    files: &mut F,
) -> Result<Work, Early>
    requires { WasRead script }
    ensures { IsStep (urls_with given.now (source_view from.now) script) (F.state files.old) (ok_as seen_work result) (F.state files.new) }
{
    let batch = read_urls(alloc, from, given, files)?;
    let entries = entries_for(alloc, &batch, given)?;
    let program = resolve_names(alloc, script)?;
    Ok(Work {
        program,
        batch,
        entries,
    })
}
