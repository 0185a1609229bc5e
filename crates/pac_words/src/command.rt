// What the words ask for.
ghost use Rattle.std.specs.Prelude.{◌<◌, ◌≤◌};
ghost use Rattle.std.specs.Option.{ForSome};
ghost use Rattle.batch_text.specs.declared.batch.TheConstants.{MOST_URLS};
ghost use Rattle.pac_calendar.specs.declared.showing.TheConstants.{LAST_MOMENT};
ghost use Rattle.poll_log.specs.declared.terms.TheConstants.{MOST_TRIES, MOST_WAIT};

use pac_calendar::Zone;
use pac_ports::Servers;

/// Where and how often a name is asked for.
#[derive(Clone, Copy)]
pub struct Asking {
    pub servers: Servers,
    /// Beats from the first sending to the second.
    pub wait: u32,
    pub tries: u32,
    ghost waits: { 0 < wait },
    ghost wait_within: { wait ≤ MOST_WAIT },
    ghost tried: { 0 < tries },
    ghost tries_within: { tries ≤ MOST_TRIES },
}

/// What a run of the script has.
#[derive(Clone, Copy)]
pub struct Running {
    pub fuel: u64,
    pub my_ip: u32,
    pub zone: Zone,
    /// The moment, in seconds since 1970 in UTC, where it isn't the clock's.
    pub now: Option<u64>,
    ghost now_within: { ForSome now (λ seconds. seconds ≤ LAST_MOMENT) },
}

/// One URL, or a file of many.
#[derive(Clone, Copy)]
pub enum Source<'a> {
    Url(&'a str),
    Batch(&'a str),
}

/// From what a large input is made.
#[derive(Clone, Copy)]
pub struct Generating {
    pub seed: u32,
    /// How many sites there are: as many as a batch has URLs.
    pub sites: u32,
    ghost few: { sites ≤ MOST_URLS },
}

/// A command with its arguments.
#[derive(Clone, Copy)]
pub enum Command<'a> {
    Resolve {
        script: &'a str,
        from: Source<'a>,
        asking: Asking,
        running: Running,
    },
    Map {
        names: &'a str,
        script: &'a str,
        from: Source<'a>,
        running: Running,
    },
    Check {
        script: &'a str,
    },
    Ask {
        name: &'a str,
        asking: Asking,
    },
    Generate(Generating),
}
