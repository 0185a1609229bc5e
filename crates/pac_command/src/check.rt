// `check`: a script as it is printed.
ghost use Rattle.pac_plan.specs.Plan.{Outside, with_files};
ghost use Rattle.pac_plan.specs.Follows.{IsUnlessMemory};
ghost use Rattle.pac_plan.specs.OutputView.{made};
ghost use Rattle.pac_command.specs.Plans.{Follows};
ghost use Rattle.pac_command.specs.Check.{check_plan, printed};

use crate::Status;
use crate::inputs::read_script_file;
use js_printer::print;
use js_tree::Script;
use pac_plan::Output;
use pac_ports::Files;
use std::alloc::Global;
use utf16_text::Memory;

/// Reads the script and prints it.
pub(crate) fn check<F: Files>(alloc: Global, script: &str, files: &mut F) -> Result<Output, Memory>
    ensures { (o : Outside) → Follows (check_plan script.now) (with_files o (F.state files.old)) (with_files o (F.state files.new)) (made result) }
{
    match read_script_file(alloc, script, files) {
        Ok(script) => printed_script(alloc, &script),
        Err(early) => early.output(),
    }
}

fn printed_script(alloc: Global, script: &Script) -> Result<Output, Memory>
    ensures { IsUnlessMemory (printed script.now) (made result) }
{
    let text = print(alloc, script)?;
    Ok(Output {
        status: Status::Good,
        text,
    })
}
