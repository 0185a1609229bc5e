// Names that are told whole.
ghost use Rattle.std.specs.Prelude.{◌≡◌, ◌≤◌, OnOk, length};
ghost use Rattle.pac_names.specs.declared.kind.NameKind.{NameKind};
ghost use Rattle.batch_text.specs.Names.{ReadsNames, line_of};
ghost use Rattle.batch_text.specs.Told.{in_other_family, other_kind, told_in, with_other, with_other_of};
ghost use Rattle.utf16_text.specs.declared.limits.TheConstants.{LONGEST_FILE};

use crate::names::{Line, NamesAnswer, line_of, read_names};
use answer_table::AnswerTable;
use bstr::ByteSlice;
use pac_names::{Answer, LookupName, NameKind};
use std::alloc::Global;
use utf16_text::Memory;

/// The answers that a file of names tells, and that a name which has a line for one family alone has no address in the
/// other. So each name that stands in the file is known whole.
#[tactic(auto, using(crate::proofs::Telling::whole_by_lines))]
pub fn read_told_names(alloc: Global, bytes: &[u8]) -> Result<AnswerTable, NamesAnswer>
    requires { length bytes.now ≤ LONGEST_FILE }
    ensures { ReadsNames result (told_in bytes.now) }
{
    let mut table = read_names(alloc, bytes)?;
    for line in bytes.lines() {
        tell_other_of(alloc, &mut table, line)?;
    }
    Ok(table)
}

/// Tells of the name of a line that it has no address in the other family, unless the table has an answer there.
fn tell_other_of(alloc: Global, table: &mut AnswerTable, line: &[u8]) -> Result<(), Memory>
    ensures { OnOk result (table.new ≡ with_other_of table.old (line_of line.now)) }
{
    match line_of(alloc, line)? {
        Line::Entry(name, _) => tell_other(alloc, table, &name),
        Line::Nothing | Line::Bad => Ok(()),
    }
}

fn tell_other(alloc: Global, table: &mut AnswerTable, name: &LookupName) -> Result<(), Memory>
    ensures { OnOk result (table.new ≡ with_other table.old name.now) }
{
    let other = in_other_family(name);
    if table.get(&other).is_none() {
        table.insert(alloc, other, Answer::NoAddress)?;
    }
    Ok(())
}

fn in_other_family(name: &LookupName) -> LookupName
    ensures { result ≡ in_other_family name.now }
{
    name.with_kind(other_kind(name.kind()))
}

fn other_kind(kind: NameKind) -> NameKind
    ensures { result ≡ other_kind kind }
{
    match kind {
        NameKind::V4 => NameKind::V6,
        NameKind::V6 => NameKind::V4,
    }
}
