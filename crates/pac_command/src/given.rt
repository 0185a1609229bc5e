// What the runs of a command are given.
ghost use Rattle.std.specs.Prelude.{◌≤◌};
ghost use Rattle.std.specs.Option.{ForSome};
ghost use Rattle.pac_words.specs.Views.{running_view};
ghost use Rattle.pac_command.specs.Begun.{IsGiven, IsMoment};
ghost use Rattle.pac_calendar.specs.declared.showing.TheConstants.{LAST_MOMENT};

use pac_calendar::Zone;
use pac_functions::PacSettings;
use pac_ports::Clock;
use pac_words::Running;

/// What each run of a command is given, whatever its URL.
#[derive(Clone, Copy)]
pub struct Given {
    /// The moment of the command, in seconds since 1970 in UTC.
    pub start: i64,
    pub zone: Zone,
    /// What scripts are told of this machine.
    pub settings: PacSettings,
    pub fuel: u64,
}

/// What the words give to each run. The clock is asked where they don't say the moment.
pub(crate) fn given_by<C: Clock>(running: &Running, clock: &mut C) -> Given
    ensures { IsGiven (running_view running.entry.now) (C.told clock.old) result (C.told clock.new) }
{
    let settings = PacSettings {
        my_ip: running.my_ip,
    };
    Given {
        start: moment(running.now, clock),
        zone: running.zone,
        settings,
        fuel: running.fuel,
    }
}

// The moment, in seconds since 1970 in UTC.
fn moment<C: Clock>(now: Option<u64>, clock: &mut C) -> i64
    requires { ForSome now (λ seconds. seconds ≤ LAST_MOMENT) }
    ensures { IsMoment now (C.told clock.old) result (C.told clock.new) }
{
    match now {
        Some(seconds) => seconds as i64,
        None => clock.now(),
    }
}
