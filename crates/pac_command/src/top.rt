// The top call.
ghost use Rattle.std.specs.Prelude.{◌≡◌, Some, map, string_bytes};
ghost use Rattle.pac_plan.specs.Follows.{IsUnlessMemory};
ghost use Rattle.pac_plan.specs.OutputView.{made};
ghost use Rattle.pac_words.specs.Commands.{command_of};
ghost use Rattle.pac_words.specs.Views.{asking_view, command_view};
ghost use Rattle.poll_log.specs.Sendings.{AreTerms};
ghost use Rattle.pac_command.specs.Plans.{FollowsDoing, Serves};
ghost use Rattle.url_runs.specs.Resolving.{Completion};
ghost use Rattle.pac_command.specs.Commands.{doing_of, upstream_of, usage};
ghost use Rattle.pac_command.specs.Laws.{CommandsKeepLaws};

use crate::Status;
use crate::check::check;
use crate::generate::generate;
use crate::given::given_by;
use crate::work::{read_mapping, read_work};
use pac_ask::ask;
use pac_plan::{Output, give, line};
use pac_ports::{Clock, Dice, Files, Link, Sink};
use pac_words::{Asking, Command, read_words};
use poll_log::Terms;
use poll_loop::Upstream;
use std::alloc::Global;
use std::sync::ledger::Ledger;
use step_counter::Steps;
use url_runs::{map_urls, resolve_urls};
use utf16_text::Memory;

/// Does what the words after the program's name ask for, writes the output to `out` and returns its status.
///
/// A process is expected to end with it: the memory of a script's tree is left to the system.
///
/// `runs` counts the runs of scripts. Only `resolve` and `ask` touch the link and the dice, and only `resolve` and
/// `map` the clock, once, where the words don't say the moment; `generate` touches nothing but `runs`.
pub fn pac<F: Files, K: Sink, N: Link, C: Clock, D: Dice, L: Ledger>(
    alloc: Global,
    words: &Vec<String>,
    files: &mut F,
    out: &mut K,
    link: &mut N,
    clock: &mut C,
    dice: &mut D,
    runs: &mut Steps<L>,
) -> Status
    // The plan of the words is followed and its output written, with the order and completeness of every plan. What
    // `resolve` reports is by runs against a map of all names, whichever agrees with the first accepted replies of the
    // log.
    ensures serves { (complete : Completion) → Serves (doing_of complete (command_of (map string_bytes words.now.items)))
        (record { files = F.state files.old; link = N.state link.old; clock = C.told clock.old; dice = D.told dice.old; runs = runs.old })
        (record { files = F.state files.new; link = N.state link.new; clock = C.told clock.new; dice = D.told dice.new; runs = runs.new })
        (K.state out.old) (K.state out.new) result }
    // For each log there is a map that agrees with it; what is polled for is sound, so where memory ran out the log is cut
    // short; nothing is unanswered where each name is told; no URL costs more runs than the distinct names of its whole
    // run, plus one; what `generate` reads and logs is one script and one log, and it counts no more runs than that log
    // costs; and the words' wait and tries are in range.
    ensures laws { CommandsKeepLaws }
{
    let Ok(command) = read_words(alloc, words) else {
        return Status::Memory;
    };
    match command {
        Some(command) => give(out, done(alloc, &command, files, link, clock, dice, runs)),
        None => give(out, faulty_usage(alloc)),
    }
}

// What the command and the outside come to.
fn done<F: Files, N: Link, C: Clock, D: Dice, L: Ledger>(
    alloc: Global,
    command: &Command<'_>,
    files: &mut F,
    link: &mut N,
    clock: &mut C,
    dice: &mut D,
    runs: &mut Steps<L>,
) -> Result<Output, Memory>
    ensures { (complete : Completion) → FollowsDoing (doing_of complete (Some (command_view command.now)))
        (record { files = F.state files.old; link = N.state link.old; clock = C.told clock.old; dice = D.told dice.old; runs = runs.old })
        (record { files = F.state files.new; link = N.state link.new; clock = C.told clock.new; dice = D.told dice.new; runs = runs.new }) (made result) }
{
    match command {
        Command::Resolve {
            script,
            from,
            asking,
            running,
        } => {
            let given = given_by(running, clock);
            match read_work(alloc, script, from, &given, files) {
                Ok(work) => resolve_urls(alloc, work, upstream_of(*asking), link, dice, runs),
                Err(early) => early.output(),
            }
        }
        Command::Map {
            names,
            script,
            from,
            running,
        } => {
            let given = given_by(running, clock);
            match read_mapping(alloc, names, script, from, &given, files) {
                Ok((answers, work)) => map_urls(alloc, work, &answers, runs),
                Err(early) => early.output(),
            }
        }
        Command::Check { script } => check(alloc, script, files),
        Command::Ask { name, asking } => ask(alloc, name, upstream_of(*asking), link, dice, runs),
        Command::Generate(generating) => generate(alloc, *generating, runs),
    }
}

// Whom to ask, and how often, as the words say.
fn upstream_of(asking: Asking) -> Upstream
    ensures same { result ≡ upstream_of (asking_view asking) }
    ensures ready { AreTerms result.terms }
{
    let terms = Terms {
        wait: asking.wait,
        tries: asking.tries,
    };
    Upstream {
        servers: asking.servers,
        terms,
    }
}

fn faulty_usage(alloc: Global) -> Result<Output, Memory>
    ensures { IsUnlessMemory usage (made result) }
{
    let text = "usage: pac resolve|map|check|ask|generate ARGUMENTS";
    line(alloc, Status::Usage, text, "", "")
}
