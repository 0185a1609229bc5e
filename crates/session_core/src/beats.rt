// What a beat does.
ghost use Rattle.std.specs.Prelude.{◌≡◌, ℕ, ◌<◌, IfOk, OnOk, get_or, length, map, true};
ghost use Rattle.std.specs.List.{All};
ghost use Rattle.stub_poller.specs.State.{beaten, dying, resent};
ghost use Rattle.session_core.specs.declared.session.Session.{Session as Kept};
ghost use Rattle.session_core.specs.Waiting.{IsKept, ended_all, ended_by, ended_where, has};

use crate::roster::Roster;
use crate::{Progress, Session};
use pac_names::LookupName;
use poll_log::Sending;
use std::alloc::Global;
use stub_poller::Stub;
use utf16_text::Memory;

/// A beat: what is to be sent again, in the order of asking. The sessions that wait for a name which the beat ends are
/// unanswered; it looks at no other.
pub(crate) fn take_beat<R, O: Drop>(
    alloc: Global,
    roster: &mut Roster<R, O>,
    stub: &mut Stub,
) -> Result<Vec<Sending>, Memory>
    requires { IsKept roster.old }
    ensures again { IfOk result (λ again. again.items ≡ resent stub.old) }
    ensures stub { OnOk result (stub.new ≡ beaten stub.old) }
    ensures sessions { OnOk result (roster.new.all.items ≡ ended_all (dying stub.old) roster.old.all.items) }
    ensures kept { OnOk result (IsKept roster.new) }
{
    let report = stub.on_beat();
    let again = report.resends(alloc)?;
    bury(alloc, roster, &report.dead)?;
    Ok(again)
}

// Ends the sessions that wait for any of these names.
fn bury<R, O: Drop>(
    alloc: Global,
    roster: &mut Roster<R, O>,
    dead: &[LookupName],
) -> Result<(), Memory>
    requires { IsKept roster.old }
    ensures sessions { OnOk result (roster.new.all.items ≡ ended_all dead.now roster.old.all.items) }
    ensures kept { OnOk result (IsKept roster.new) }
{
    for name in dead {
        end_waiters(alloc, roster, name)?;
    }
    Ok(())
}

// Ends the sessions that wait for the name.
fn end_waiters<R, O: Drop>(
    alloc: Global,
    roster: &mut Roster<R, O>,
    name: &LookupName,
) -> Result<(), Memory>
    requires { IsKept roster.old }
    ensures sessions { OnOk result (roster.new.all.items ≡ map (ended_by name.now) roster.old.all.items) }
    ensures kept { OnOk result (IsKept roster.new) }
{
    let places = roster.waiting.take(alloc, name)?;
    end_all(&mut roster.all, &places, name);
    Ok(())
}

// Ends the sessions at these places.
fn end_all<R, O: Drop>(sessions: &mut [Session<R, O>], places: &[usize], name: &LookupName)
    requires { All (λ place. place < length sessions.old) places.now }
    ensures long { length sessions.new ≡ length sessions.old }
    ensures ended { (at : ℕ) (d : Kept R O) → at < length sessions.old → get_or sessions.new at d
        ≡ ended_where (has places.now at) name.now (get_or sessions.old at d) }
{
    for place in places {
        end_one(&mut sessions[*place], name);
    }
}

fn end_one<R, O: Drop>(session: &mut Session<R, O>, name: &LookupName)
    ensures { session.new ≡ ended_where true name.now session.old }
{
    session.progress = Progress::Unanswered(name.copy());
}
