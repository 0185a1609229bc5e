// The runs that an answer causes.
ghost use Rattle.std.specs.Prelude.{◌≡◌, ℕ, ◌+◌, ◌<◌, ◌≤◌, ◌&&◌, ◌||◌, IfOk, List, OnErr, OnOk, Some, length, nat_eq, true};
ghost use Rattle.std.specs.Option.{option_to_list};
ghost use Rattle.pac_names.specs.Names.{Name};
ghost use Rattle.poll_loop.specs.Numbers.{GaveAll};
ghost use Rattle.session_core.specs.Sessions.{count_woken};
ghost use Rattle.session_core.specs.Cascade.{Cascades, RunsAgain};
ghost use Rattle.session_core.specs.Waiting.{AreFilled, IsKept, RunsAt, waits_at, waits_in};

use crate::asking::push_asked;
use crate::lookups::Lookups;
use crate::roster::Roster;
use crate::settling::settle;
use crate::waiting::note;
use crate::{Run, Session};
use pac_names::LookupName;
use pac_ports::Dice;
use poll_log::Question;
use std::alloc::Global;
use std::sync::ledger::Ledger;
use step_counter::Steps;
use utf16_text::Memory;

/// Runs each session again that waits for the name that was told, if one was, in their order; it looks at no other. What
/// these runs ask is given.
pub(crate) fn rerun<R: Run, D: Dice, L: Ledger>(
    alloc: Global,
    roster: &mut Roster<R, R::Outcome>,
    told: Option<LookupName>,
    lookups: &mut Lookups,
    dice: &mut D,
    runs: &mut Steps<L>,
) -> Result<Vec<Question>, Memory>
    requires { IsKept roster.old }
    ensures ok { IfOk result (λ asked. Cascades R.gives R.tree told roster.old.all.items roster.new.all.items
        lookups.old lookups.new (D.told dice.old) (D.told dice.new) asked.items) }
    ensures kept { OnOk result (IsKept roster.new) }
    ensures memory { OnErr result ((more : List ℕ) × GaveAll (D.told dice.old) more (D.told dice.new)) }
    ensures ran { OnOk result (runs.new ≡ runs.old + count_woken told roster.old.all.items) }
    ensures most { runs.new ≤ runs.old + count_woken told roster.old.all.items }
{
    match told {
        Some(name) => wake(alloc, roster, &name, lookups, dice, runs),
        None => Ok(Vec::new(alloc)),
    }
}

// Runs each session again that waits for the name, in their order.
fn wake<R: Run, D: Dice, L: Ledger>(
    alloc: Global,
    roster: &mut Roster<R, R::Outcome>,
    name: &LookupName,
    lookups: &mut Lookups,
    dice: &mut D,
    runs: &mut Steps<L>,
) -> Result<Vec<Question>, Memory>
    requires { IsKept roster.old }
    ensures ok { IfOk result (λ asked. Cascades R.gives R.tree (Some name.now) roster.old.all.items roster.new.all.items
        lookups.old lookups.new (D.told dice.old) (D.told dice.new) asked.items) }
    ensures kept { OnOk result (IsKept roster.new) }
    ensures memory { OnErr result ((more : List ℕ) × GaveAll (D.told dice.old) more (D.told dice.new)) }
    ensures ran { OnOk result (runs.new ≡ runs.old + count_woken (Some name.now) roster.old.all.items) }
    ensures most { runs.new ≤ runs.old + count_woken (Some name.now) roster.old.all.items }
{
    let woken = roster.waiting.take(alloc, name)?;
    let mut asked = Vec::new(alloc);
    for place in &woken {
        let question = rerun_at(alloc, roster, *place, lookups, dice, runs)?;
        push_asked(&mut asked, question)?;
    }
    Ok(asked)
}

// Runs the session at a place again. What is asked for it is given, if anything is.
fn rerun_at<R: Run, D: Dice, L: Ledger>(
    alloc: Global,
    roster: &mut Roster<R, R::Outcome>,
    place: usize,
    lookups: &mut Lookups,
    dice: &mut D,
    runs: &mut Steps<L>,
) -> Result<Option<Question>, Memory>
    requires { place < length roster.old.all.items }
    ensures ok { IfOk result (λ asked. RunsAt R.gives R.tree place roster.old.all.items roster.new.all.items
        lookups.old lookups.new (D.told dice.old) (D.told dice.new) (option_to_list asked)) }
    ensures noted { OnOk result ((name : Name) (at : ℕ) → waits_in roster.new.waiting name at
        ≡ ((waits_at name roster.new.all.items place && nat_eq place at) || waits_in roster.old.waiting name at)) }
    ensures filled { OnOk result (AreFilled roster.old.waiting → AreFilled roster.new.waiting) }
    ensures memory { OnErr result ((more : List ℕ) × GaveAll (D.told dice.old) more (D.told dice.new)) }
    ensures ran { runs.new ≡ runs.old + 1 }
{
    let asked = rerun_one(alloc, &mut roster.all[place], lookups, dice, runs)?;
    note(
        alloc,
        &mut roster.waiting,
        &roster.all[place].progress,
        place,
    )?;
    Ok(asked)
}

// Runs the session again. What is asked for it is given, if anything is.
fn rerun_one<R: Run, D: Dice, L: Ledger>(
    alloc: Global,
    session: &mut Session<R, R::Outcome>,
    lookups: &mut Lookups,
    dice: &mut D,
    runs: &mut Steps<L>,
) -> Result<Option<Question>, Memory>
    ensures ok { IfOk result (λ asked. RunsAgain R.gives R.tree true session.old session.new lookups.old lookups.new
        (D.told dice.old) (D.told dice.new) (option_to_list asked)) }
    ensures memory { OnErr result ((more : List ℕ) × GaveAll (D.told dice.old) more (D.told dice.new)) }
    ensures ran { runs.new ≡ runs.old + 1 }
{
    let settled = settle(alloc, &session.run, lookups, dice, runs)?;
    session.progress = settled.progress;
    session.runs = session.runs.saturating_add(1);
    Ok(settled.asked)
}
