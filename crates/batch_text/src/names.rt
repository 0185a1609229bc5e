// Files of names.
ghost use Rattle.std.specs.Prelude.{◌≡◌, ◌≤◌, IfOk, length};
ghost use Rattle.pac_names.specs.Names.{lookup_name_of};
ghost use Rattle.batch_text.specs.Names.{ReadsNames, names_in, address_of, answer_of, kind_of, line_of, text_line};
ghost use Rattle.batch_text.specs.Entering.{Enters, said};
ghost use Rattle.utf16_text.specs.declared.limits.TheConstants.{LONGEST_FILE};

use crate::lines::{rest, says_nothing, text_of, word};
use answer_table::AnswerTable;
use bstr::ByteSlice;
use pac_ext::quad6;
use pac_names::{Answer, LookupName, NameKind, quad};
use std::alloc::Global;
use utf16_text::{Memory, Text};

/// Why a line of a file of names is refused.
#[derive(Clone, Copy, Debug, PartialEq, Eq)]
pub enum NamesKind {
    /// It is no UTF-8, or not a lookup name, blanks, and a dotted quad, an IPv6 text or `-`.
    BadLine,
    /// Its name stands in an earlier line of the same family.
    Twice,
}

/// Why a file of names gives no answers.
#[derive(Clone, Copy, Debug, PartialEq, Eq)]
pub enum NamesAnswer {
    /// The first line that is refused, by its number from 1.
    Refused(NamesKind, u32),
    Memory,
}

impl From<Memory> for NamesAnswer {
    ghost use Rattle.std.specs.Prelude.{◌≡◌};
    ghost use Rattle.batch_text.specs.declared.names.NamesAnswer.TheVariants as answer;

    ghost from_gives = { λ _ e. e ≡ answer.Memory };

    fn from(_: Memory) -> NamesAnswer {
        NamesAnswer::Memory
    }
}

/// What a line says.
#[derive(Drop)]
pub(crate) enum Line {
    Nothing,
    Entry(LookupName, Answer),
    Bad,
}

/// The answers that a file tells, in each line a lookup name, blanks, and a dotted quad, an IPv6 text, or `-` for no
/// IPv4 address. A name may have a line for each family. A line that is blank or begins with `#` says nothing.
pub fn read_names(alloc: Global, bytes: &[u8]) -> Result<AnswerTable, NamesAnswer>
    requires { length bytes.now ≤ LONGEST_FILE }
    ensures { ReadsNames result (names_in bytes.now) }
{
    let mut table = AnswerTable::new(alloc);
    let mut number = 0_u32;
    for line in bytes.lines() {
        number += 1;
        enter(alloc, &mut table, line, number)?;
    }
    Ok(table)
}

/// Takes what a line says into the table.
fn enter(
    alloc: Global,
    table: &mut AnswerTable,
    line: &[u8],
    number: u32,
) -> Result<(), NamesAnswer>
    ensures { Enters table.old (line_of line.now) number result table.new }
{
    match line_of(alloc, line)? {
        Line::Nothing => Ok(()),
        Line::Bad => Err(NamesAnswer::Refused(NamesKind::BadLine, number)),
        Line::Entry(name, answer) => {
            if table.get(&name).is_some() {
                return Err(NamesAnswer::Refused(NamesKind::Twice, number));
            }
            table.insert(alloc, name, answer)?;
            Ok(())
        }
    }
}

pub(crate) fn line_of(alloc: Global, line: &[u8]) -> Result<Line, Memory>
    ensures { IfOk result (λ l. said l ≡ line_of line.now) }
{
    match text_of(line) {
        Some(text) => text_line(alloc, text),
        None => Ok(Line::Bad),
    }
}

fn text_line(alloc: Global, line: &str) -> Result<Line, Memory>
    ensures { IfOk result (λ l. said l ≡ text_line line.now) }
{
    if says_nothing(line) {
        return Ok(Line::Nothing);
    }
    let answer = answer_of(alloc, rest(line))?;
    match (LookupName::from_bytes(word(line).as_bytes()), answer) {
        (Some(name), Some(answer)) => Ok(Line::Entry(name.with_kind(kind_of(answer)), answer)),
        _ => Ok(Line::Bad),
    }
}

fn answer_of(alloc: Global, rest: &str) -> Result<Option<Answer>, Memory>
    ensures { IfOk result (λ answer. answer ≡ answer_of rest.now) }
{
    if rest == "-" {
        return Ok(Some(Answer::NoAddress));
    }
    Ok(address_of(&Text::from_latin_1(alloc, rest.as_bytes())?))
}

/// The address of a dotted quad or of an IPv6 text.
fn address_of(text: &Text) -> Option<Answer>
    ensures { result ≡ address_of text.now }
{
    match quad(text) {
        Some(address) => Some(Answer::Address(address)),
        None => quad6(text).map(Answer::Address6),
    }
}

/// The family that an answer is of; `-` is said of IPv4.
fn kind_of(answer: Answer) -> NameKind
    ensures { result ≡ kind_of answer }
{
    match answer {
        Answer::Address(_) | Answer::NoAddress => NameKind::V4,
        Answer::Address6(_) => NameKind::V6,
    }
}
