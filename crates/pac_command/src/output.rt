// What is said of inputs that are refused.
ghost use Rattle.std.specs.Prelude.{◌≡◌};
ghost use Rattle.pac_plan.specs.Follows.{IsUnlessMemory};
ghost use Rattle.pac_command.specs.Scripts as scripts;
ghost use Rattle.pac_plan.specs.OutputView.{made};

use crate::Status;
use js_tree::{Place, ReadKind};
use pac_plan::{Output, line};
use std::alloc::Global;
use utf16_text::Memory;

/// The output where an input is refused.
pub(crate) fn refused(alloc: Global, what: &str) -> Result<Output, Memory>
    ensures { IsUnlessMemory (scripts.refused what.now) (made result) }
{
    line(alloc, Status::Refused, "refused ", what, "")
}

/// The output where an input of this kind is refused at a line, by its number from 1.
pub(crate) fn refused_line(
    alloc: Global,
    kind: &str,
    number: u32,
    name: &str,
) -> Result<Output, Memory>
    ensures { IsUnlessMemory (scripts.refused_line kind.now number name.now) (made result) }
{
    let text = format!(in alloc; "refused {kind} {number} {name}\n")?;
    Ok(Output {
        status: Status::Refused,
        text: text.into_bytes(),
    })
}

/// The output where a script is refused.
pub(crate) fn refused_script(alloc: Global, kind: ReadKind, place: Place) -> Result<Output, Memory>
    ensures { IsUnlessMemory (scripts.refused_script (kind, place)) (made result) }
{
    let name = kind_name(kind);
    let text = format!(in alloc; "refused script {place} {name}\n")?;
    Ok(Output {
        status: Status::Refused,
        text: text.into_bytes(),
    })
}

fn kind_name(kind: ReadKind) -> &'static str
    ensures { result.now ≡ scripts.kind_name kind }
{
    match kind {
        ReadKind::BadToken => "BadToken",
        ReadKind::Unexpected => "Unexpected",
        ReadKind::TooDeep => "TooDeep",
        ReadKind::FractionLiteral => "FractionLiteral",
        ReadKind::Unsupported => "Unsupported",
    }
}
