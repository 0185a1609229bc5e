// The commands from their matches.

ghost use Rattle.std.specs.Prelude.{◌≡◌, ◌≤◌, IfSome, codes, option_map};
ghost use Rattle.std.specs.Option.{ForSome};
ghost use Rattle.pac_words.specs.Commands.{
  asking_of,
  running_of,
  resolve_of,
  map_of,
  check_of,
  ask_of,
  generate_of,
  source_from,
  now_of,
  zone_or,
  number_given,
};
ghost use Rattle.pac_words.specs.Views.{asking_view, running_view, source_view, command_view, given_in};
ghost use Rattle.pac_calendar.specs.declared.showing.TheConstants.{LAST_MOMENT};

use crate::command::{Asking, Command, Generating, Running, Source};
use crate::number::{number, number_or};
use crate::parse::value;
use crate::quad::{quad_or, servers_or};
use crate::usual::{LOCAL, MOST_FUEL, USUAL_FUEL, USUAL_TRIES, USUAL_WAIT};
use batch_text::MOST_URLS;
use clap::ArgMatches;
use pac_calendar::{LAST_MOMENT, Zone, read_zone};
use poll_log::{MOST_TRIES, MOST_WAIT};

// The moment of an option `--now`; the inner None is the clock's.
fn moment(text: Option<&str>) -> Option<Option<u64>>
    ensures moment { result ≡ now_of (option_map (λ t. t.now) text.entry) }
    ensures within { IfSome result (λ now. ForSome now (λ seconds. seconds ≤ LAST_MOMENT)) }
{
    match text {
        None => Some(None),
        Some(text) => match number(text, 0, LAST_MOMENT) {
            None => None,
            Some(now) => Some(Some(now)),
        },
    }
}

// The zone of an option `--zone`.
fn zone(text: Option<&str>) -> Option<Zone>
    ensures { result ≡ zone_or (option_map (λ t. t.now) text.entry) }
{
    match text {
        None => Some(Zone::utc()),
        Some(text) => read_zone(text),
    }
}

fn source<'a>(url: Option<&'a str>, batch: Option<&'a str>) -> Option<Source<'a>>
    ensures { option_map source_view result ≡ source_from (option_map (λ t. t.now) url.entry) (option_map (λ t. t.now) batch.entry) }
{
    match (url, batch) {
        (Some(url), None) => Some(Source::Url(url)),
        (None, Some(file)) => Some(Source::Batch(file)),
        _ => None,
    }
}

fn number_given(text: Option<&str>, low: u64, high: u64) -> Option<u64>
    ensures number { result ≡ number_given low high (option_map (λ t. t.now) text.entry) }
    ensures range { IfSome result (λ n. (low ≤ n) × (n ≤ high)) }
{
    match text {
        None => None,
        Some(text) => number(text, low, high),
    }
}

fn asking(matches: &ArgMatches<'_>) -> Option<Asking>
    ensures { option_map asking_view result ≡ asking_of (given_in matches.now) }
{
    let servers = servers_or(value(matches, "server"), value(matches, "second"))?;
    let wait = number_or(
        value(matches, "wait"),
        USUAL_WAIT as u64,
        1,
        MOST_WAIT as u64,
    )?;
    let tries = number_or(
        value(matches, "tries"),
        USUAL_TRIES as u64,
        1,
        MOST_TRIES as u64,
    )?;
    Some(Asking {
        servers,
        wait: wait as u32,
        tries: tries as u32,
    })
}

fn running(matches: &ArgMatches<'_>) -> Option<Running>
    ensures { option_map running_view result ≡ running_of (given_in matches.now) }
{
    let fuel = number_or(value(matches, "fuel"), USUAL_FUEL, 1, MOST_FUEL)?;
    let my_ip = quad_or(value(matches, "my-ip"), LOCAL)?;
    let zone = zone(value(matches, "zone"))?;
    let now = moment(value(matches, "now"))?;
    Some(Running {
        fuel,
        my_ip,
        zone,
        now,
    })
}

pub(crate) fn resolve<'a>(matches: &ArgMatches<'a>) -> Option<Command<'a>>
    ensures { option_map command_view result ≡ resolve_of (given_in matches.now) }
{
    let script = value(matches, "script")?;
    let from = source(value(matches, "url"), value(matches, "batch"))?;
    let asking = asking(matches)?;
    let running = running(matches)?;
    Some(Command::Resolve {
        script,
        from,
        asking,
        running,
    })
}

pub(crate) fn map<'a>(matches: &ArgMatches<'a>) -> Option<Command<'a>>
    ensures { option_map command_view result ≡ map_of (given_in matches.now) }
{
    let names = value(matches, "names")?;
    let script = value(matches, "script")?;
    let from = source(value(matches, "url"), value(matches, "batch"))?;
    let running = running(matches)?;
    Some(Command::Map {
        names,
        script,
        from,
        running,
    })
}

pub(crate) fn check<'a>(matches: &ArgMatches<'a>) -> Option<Command<'a>>
    ensures { option_map command_view result ≡ check_of (given_in matches.now) }
{
    let script = value(matches, "script")?;
    Some(Command::Check { script })
}

pub(crate) fn ask<'a>(matches: &ArgMatches<'a>) -> Option<Command<'a>>
    ensures { option_map command_view result ≡ ask_of (given_in matches.now) }
{
    let name = value(matches, "name")?;
    let asking = asking(matches)?;
    Some(Command::Ask { name, asking })
}

pub(crate) fn generate<'a>(matches: &ArgMatches<'a>) -> Option<Command<'a>>
    ensures { option_map command_view result ≡ generate_of (given_in matches.now) }
{
    let seed = number_given(value(matches, "seed"), 0, 4_294_967_295)?;
    let sites = number_given(value(matches, "sites"), 1, MOST_URLS as u64)?;
    let generating = Generating {
        seed: seed as u32,
        sites: sites as u32,
    };
    Some(Command::Generate(generating))
}
