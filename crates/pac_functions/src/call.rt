// A call of a function.
ghost use Rattle.run_trees.specs.RunTree.{walk};
ghost use Rattle.pac_functions.specs.Call.{pac_call};
ghost use Rattle.pac_functions.specs.Comes.{Comes, Answers};

use crate::addresses::{address_of, is_in_net, quad_value};
use crate::families::{addresses_of, is_in_net_ex};
use crate::ranges::{is_date, is_time, is_weekday, shown};
use crate::texts::{
    dns_domain_is, dns_domain_levels, is_plain_host_name, local_host_or_domain_is, sh_exp_match_is,
    text_at,
};
use heap_values::Value;
use js_host::Host;
use pac_calendar::Moments;
use pac_names::LookupName;
use std::alloc::Global;
use utf16_text::Memory;

/// The functions.
#[derive(Clone, Copy, Debug, PartialEq, Eq)]
pub enum PacFunction {
    IsPlainHostName,
    DnsDomainIs,
    LocalHostOrDomainIs,
    DnsDomainLevels,
    DnsResolve,
    IsResolvable,
    IsInNet,
    MyIpAddress,
    ShExpMatch,
    Alert,
    WeekdayRange,
    DateRange,
    TimeRange,
    DnsResolveEx,
    IsResolvableEx,
    IsInNetEx,
}

/// What scripts are told of this machine.
#[derive(Clone, Copy, Debug, PartialEq, Eq)]
pub struct PacSettings {
    /// Its own address, the first octet highest.
    pub my_ip: u32,
}

/// What a call comes to.
#[derive(Drop)]
pub enum PacAnswer {
    Value(Value),
    /// The host doesn't know the address of this name.
    Missing(LookupName),
    /// 32 names were asked before, and this is another.
    TooMany,
    /// The function goes by what clocks show, and that isn't told.
    NoClock,
    Memory,
}

/// Why a call gives no value.
#[derive(Drop)]
pub(crate) enum Stop {
    Missing(LookupName),
    TooMany,
    NoClock,
    Memory,
}

impl From<Memory> for Stop {
    ghost use Rattle.std.specs.Prelude.{◌≡◌};
    ghost use Rattle.pac_functions.specs.declared.call.Stop.TheVariants as stop;

    ghost from_gives = { λ _ e. e ≡ stop.Memory };

    fn from(_: Memory) -> Stop {
        Stop::Memory
    }
}

/// Calls a function on its arguments, primitive values but for those of the ranges, which are handed over as they are.
/// A missing argument is undefined, and a surplus one counts in the ranges alone. Missing comes exactly where the call
/// asks a name that the host doesn't know, TooMany exactly where 32 names are recorded and this is another, and NoClock
/// exactly where `now` isn't told and the function is one of the ranges.
pub fn call_pac<H: Host>(
    alloc: Global,
    which: PacFunction,
    args: &[Value],
    now: Option<Moments>,
    settings: &PacSettings,
    host: &mut H,
) -> PacAnswer
    ensures { Answers (walk (pac_call which args.now now settings.now.my_ip) (H.seen host.old)) result (H.seen host.new) }
{
    match called(alloc, which, args, now, settings, host) {
        Ok(value) => PacAnswer::Value(value),
        Err(Stop::Missing(name)) => PacAnswer::Missing(name),
        Err(Stop::TooMany) => PacAnswer::TooMany,
        Err(Stop::NoClock) => PacAnswer::NoClock,
        Err(Stop::Memory) => PacAnswer::Memory,
    }
}

#[tactic(auto, unfolding(run_trees::specs::RunTree::walk))]
fn called<H: Host>(
    alloc: Global,
    which: PacFunction,
    args: &[Value],
    now: Option<Moments>,
    settings: &PacSettings,
    host: &mut H,
) -> Result<Value, Stop>
    ensures { Comes (walk (pac_call which args.now now settings.now.my_ip) (H.seen host.old)) result (H.seen host.new) }
{
    match which {
        PacFunction::IsPlainHostName => Ok(Value::Bool(is_plain_host_name(alloc, args)?)),
        PacFunction::DnsDomainIs => Ok(Value::Bool(dns_domain_is(alloc, args)?)),
        PacFunction::LocalHostOrDomainIs => Ok(Value::Bool(local_host_or_domain_is(alloc, args)?)),
        PacFunction::DnsDomainLevels => Ok(dns_domain_levels(alloc, args)?),
        PacFunction::DnsResolve => {
            let address = address_of(alloc, args, host)?;
            Ok(quad_value(alloc, address)?)
        }
        PacFunction::IsResolvable => Ok(Value::Bool(address_of(alloc, args, host)?.is_some())),
        PacFunction::IsInNet => {
            let address = address_of(alloc, args, host)?;
            Ok(Value::Bool(is_in_net(alloc, args, address)?))
        }
        PacFunction::MyIpAddress => Ok(quad_value(alloc, Some(settings.my_ip))?),
        PacFunction::ShExpMatch => Ok(Value::Bool(sh_exp_match_is(alloc, args)?)),
        PacFunction::Alert => {
            let text = text_at(alloc, args, 0)?;
            host.alert(alloc, &text)?;
            Ok(Value::Undefined)
        }
        PacFunction::WeekdayRange => Ok(Value::Bool(is_weekday(alloc, &shown(now)?, args)?)),
        PacFunction::DateRange => Ok(Value::Bool(is_date(alloc, &shown(now)?, args)?)),
        PacFunction::TimeRange => Ok(Value::Bool(is_time(alloc, &shown(now)?, args)?)),
        PacFunction::DnsResolveEx => Ok(Value::Text(addresses_of(alloc, args, host)?)),
        PacFunction::IsResolvableEx => {
            let addresses = addresses_of(alloc, args, host)?;
            Ok(Value::Bool(!addresses.is_empty()))
        }
        PacFunction::IsInNetEx => Ok(Value::Bool(is_in_net_ex(alloc, args)?)),
    }
}
