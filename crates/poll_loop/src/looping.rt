// The loop.
ghost use Rattle.std.specs.Prelude.{◌≡◌, ℕ, ◌+◌, ◌*◌, ◌<◌, ◌≤◌, OnOk, length, map, true};
ghost use Rattle.pac_plan.specs.Plan.{Outside, around};
ghost use Rattle.poll_log.specs.Rounds.{turns_in};
ghost use Rattle.poll_log.specs.Questions.{outgoing_of};
ghost use Rattle.poll_log.specs.Sendings.{AreTerms};
ghost use Rattle.poll_log.specs.Jobs.{some_wait};
ghost use Rattle.poll_loop.specs.Task.{Talk};
ghost use Rattle.poll_loop.specs.Sending.{HasBegun};
ghost use Rattle.poll_loop.specs.Steps.{Began};
ghost use Rattle.poll_loop.specs.Turning.{Polled, Reached, Turned};

use crate::Poller;
use crate::sending::send_all;
use crate::stream::Stream;
use pac_names::MOST_NAMES;
use pac_ports::{Dice, Failed, Link, Servers};
use poll_log::{FLOOD, Sending, Terms};
use std::alloc::Global;
use std::sync::ledger::Ledger;
use step_counter::Steps;
use thiserror::Error;

/// The servers that are asked, and when.
#[derive(Clone, Copy, Debug, PartialEq, Eq)]
pub struct Upstream {
    pub servers: Servers,
    pub terms: Terms,
}

/// Why polling ended early.
#[derive(Clone, Copy, Debug, PartialEq, Eq, Error)]
pub enum PollError {
    #[error("the link failed")]
    Link,
    #[error("memory ran out")]
    Memory,
}

/// Sends these first questions of a poller that has begun, and whatever it wants to be sent after each event, until no
/// job waits. Where there is nothing to send the link is not touched.
pub fn poll<P: Poller, N: Link, D: Dice, L: Ledger>(
    alloc: Global,
    poller: &mut P,
    first: &[Sending],
    upstream: Upstream,
    link: &mut N,
    dice: &mut D,
    runs: &mut Steps<L>,
) -> Result<(), PollError>
    requires { AreTerms upstream.terms }
    ensures polled { (talk : Talk) (old : Outside) → talk.servers ≡ upstream.servers → talk.task.terms ≡ upstream.terms →
        old.link ≡ N.state link.old →
        Began (P.stands poller.old talk.task) talk.task (map outgoing_of first.now) old (D.told dice.old) runs.old →
        Polled talk (P.stands poller.new talk.task) old result
        (around old (N.state link.new) (D.told dice.new) runs.new) }
    ensures kept { OnOk result (P.kept poller.new ≡ P.kept poller.old) }
{
    if first.is_empty() {
        return Ok(());
    }
    let Ok(mut stream) = Stream::new(alloc) else {
        return Err(PollError::Memory);
    };
    let Ok(()) = open(link, upstream.servers, first) else {
        return Err(PollError::Link);
    };
    for _turn in 0..FLOOD * MOST_NAMES as u64 * upstream.terms.limit() as u64 {
        if poller.ended() {
            return Ok(());
        }
        match turn(alloc, poller, &mut stream, link, dice, runs) {
            Ok(()) => {}
            Err(error) => return Err(error),
        }
    }
    Ok(())
}

// One turn: an event, what is sent after it, and the frame that is due then, if one is.
fn turn<P: Poller, N: Link, D: Dice, L: Ledger>(
    alloc: Global,
    poller: &mut P,
    stream: &mut Stream,
    link: &mut N,
    dice: &mut D,
    runs: &mut Steps<L>,
) -> Result<(), PollError>
    ensures turned { (talk : Talk) (old : Outside) (count : ℕ) →
        (r : Reached talk (P.stands poller.old talk.task) old stream.old (N.state link.old) (D.told dice.old) runs.old count) →
        some_wait talk.task.terms talk.task.jobs (turns_in r.rounds) ≡ true →
        Turned talk (P.stands poller.new talk.task) old result stream.new
        (N.state link.new) (D.told dice.new) runs.new (count + 1) }
    ensures kept { OnOk result (P.kept poller.new ≡ P.kept poller.old) }
{
    let mut buffer = [0; 512];
    let Ok(got) = link.receive(&mut buffer, stream.reader.wanted()) else {
        return Err(PollError::Link);
    };
    stream.take(&buffer, got);
    let due = stream.due(poller, &buffer, got);
    let Ok(sent) = poller.step(alloc, stream.event(&buffer, got), dice, runs) else {
        return Err(PollError::Memory);
    };
    let Ok(()) = send_all(link, &sent) else {
        return Err(PollError::Link);
    };
    match due {
        Some(question) => stream.send(link, question),
        None => Ok(()),
    }
}

// Opens the link to the servers, and sends the first questions.
fn open<N: Link>(link: &mut N, servers: Servers, first: &[Sending]) -> Result<(), Failed>
    requires { 0 < length first.now }
    ensures { HasBegun (N.state link.old) servers (map outgoing_of first.now) result (N.state link.new) }
{
    link.open(servers.first, servers.second)?;
    send_all(link, first)
}
