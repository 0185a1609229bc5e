// `ask`: the address of one name.
ghost use Rattle.std.specs.Prelude.{◌≡◌, None, Some};
ghost use Rattle.utf16_text.specs.Decode.{utf16_units};
ghost use Rattle.poll_log.specs.Sendings.{AreTerms};
ghost use Rattle.pac_plan.specs.Plan.{Outside, around, talk};
ghost use Rattle.pac_plan.specs.Follows.{Follows, IsUnlessMemory};
ghost use Rattle.pac_plan.specs.OutputView.{made};
ghost use Rattle.pac_ask.specs.Ask as plan;
ghost use Rattle.pac_ask.specs.Talks.{talks};

use crate::one_name::OneName;
use pac_names::{Answer, LookupName, lookup_name, quad, quad_text};
use pac_plan::{Output, Status, line};
use pac_ports::{Dice, Link};
use poll_loop::{PollError, Upstream, poll};
use std::alloc::Global;
use std::sync::ledger::Ledger;
use step_counter::Steps;
use utf16_text::{Memory, Text};

/// Asks for the address of the name that the word spells. An address, and what is no name, asks nobody.
pub fn ask<N: Link, D: Dice, L: Ledger>(
    alloc: Global,
    word: &str,
    upstream: Upstream,
    link: &mut N,
    dice: &mut D,
    runs: &mut Steps<L>,
) -> Result<Output, Memory>
    requires { AreTerms upstream.terms }
    ensures { (o : Outside) → Follows talks (plan.ask_plan upstream (utf16_units word.now))
        (around o (N.state link.old) (D.told dice.old) runs.old)
        (around o (N.state link.new) (D.told dice.new) runs.new) (made result) }
{
    let Ok(text) = Text::from_str(alloc, word) else {
        return Err(Memory);
    };
    if let Some(address) = quad(&text) {
        return answered(alloc, Answer::Address(address));
    }
    match lookup_name(&text) {
        Some(name) => ask_name(alloc, name, upstream, link, dice, runs),
        None => answered(alloc, Answer::NoAddress),
    }
}

// The same with the name.
fn ask_name<N: Link, D: Dice, L: Ledger>(
    alloc: Global,
    name: LookupName,
    upstream: Upstream,
    link: &mut N,
    dice: &mut D,
    runs: &mut Steps<L>,
) -> Result<Output, Memory>
    requires { AreTerms upstream.terms }
    ensures { (o : Outside) → Follows talks (plan.name_plan upstream (Some name))
        (around o (N.state link.old) (D.told dice.old) runs.old)
        (around o (N.state link.new) (D.told dice.new) runs.new) (made result) }
{
    let id = dice.id();
    let Ok(begun) = OneName::start(alloc, name, upstream.terms, id) else {
        return Err(Memory);
    };
    let (mut one, first) = begun;
    match poll(alloc, &mut one, &[first], upstream, link, dice, runs) {
        Ok(()) => told(alloc, &one.name, one.answer),
        Err(PollError::Link) => line(alloc, Status::LinkFault, "fault link", "", ""),
        Err(PollError::Memory) => Err(Memory),
    }
}

// What is said of the name.
fn told(alloc: Global, name: &LookupName, answer: Option<Answer>) -> Result<Output, Memory>
    ensures { IsUnlessMemory (plan.told_output name.now answer) (made result) }
{
    match answer {
        Some(answer) => answered(alloc, answer),
        None => unanswered(alloc, name),
    }
}

fn unanswered(alloc: Global, name: &LookupName) -> Result<Output, Memory>
    ensures { IsUnlessMemory (plan.told_output name.now None) (made result) }
{
    let mut text = Vec::new(alloc);
    text.extend_from_slice(b"unanswered ")?;
    text.extend_from_slice(name.bytes())?;
    text.push(b'\n')?;
    Ok(Output {
        status: Status::Unanswered,
        text,
    })
}

fn answered(alloc: Global, answer: Answer) -> Result<Output, Memory>
    ensures { IsUnlessMemory (plan.answered answer) (made result) }
{
    match answer {
        Answer::Address(address) => line(
            alloc,
            Status::Good,
            "address ",
            &quad_text(alloc, address)?,
            "",
        ),
        // An IPv6 address is none: an IPv4 address was asked.
        Answer::Address6(_) | Answer::NoAddress => {
            line(alloc, Status::Good, "no address", "", "")
        }
    }
}
