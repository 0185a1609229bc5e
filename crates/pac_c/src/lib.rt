//! The calls of library_calls for C.
//!
//! A call writes into the room that it is given and keeps nothing, so that many may run at once. It stands on
//! library_calls, whose definitions say what each call tells.
#![tactic(auto)]

mod room;

ghost use Rattle.std.specs.Prelude.{◌≡◌};
ghost use Rattle.js_host.specs.Answers.{AnswerMap};
ghost use Rattle.library_calls.specs.Checking.{checked};
ghost use Rattle.library_calls.specs.Finding.{Agrees, found_proxy};
ghost use Rattle.library_calls.specs.Listing.{listed};
ghost use Rattle.pac_c.specs.Room.{Hands};

use crate::room::give;
use library_calls::{Settings, check, find_proxy, list_proxies};
use std::alloc::Global;

/// Runs a script once for a URL, over the names that are told. 0: the room begins with the report, as `map` writes it.
/// 1: it begins with the first name that the run needs and that isn't told.
#[unsafe(no_mangle)]
pub extern "C" fn pac_find_proxy(
    alloc: Global,
    script: &[u8],
    url: &[u8],
    names: &[u8],
    settings: &Settings,
    output: &mut [u8],
    whole: &mut usize,
) -> u32
    // The restart theorem: whatever map of all names agrees with those that are told, the call tells what the
    // uninterrupted run against it comes to, where that run needs no other name, and else the first that it needs.
    ensures hands { (all : AnswerMap) → Agrees all names.now → Hands (found_proxy all script.now url.now names.now settings.now)
        output.old (record { number = result; room = output.new; whole = whole.new }) }
    // There is such a map.
    ensures agrees { (all : AnswerMap) × Agrees all names.now }
{
    give(
        find_proxy(alloc, script, url, names, settings),
        output,
        whole,
    )
}

/// Reads a script. 0: the room begins with the script as `check` writes it.
#[unsafe(no_mangle)]
pub extern "C" fn pac_check(
    alloc: Global,
    script: &[u8],
    output: &mut [u8],
    whole: &mut usize,
) -> u32
    ensures { Hands (checked script.now) output.old (record { number = result; room = output.new; whole = whole.new }) }
{
    give(check(alloc, script), output, whole)
}

/// Reads a proxy list, as a script's function answers it. 0: the room begins with a line for each of its proxies.
#[unsafe(no_mangle)]
pub extern "C" fn pac_proxies(
    alloc: Global,
    list: &[u8],
    output: &mut [u8],
    whole: &mut usize,
) -> u32
    ensures { Hands (listed list.now) output.old (record { number = result; room = output.new; whole = whole.new }) }
{
    give(list_proxies(alloc, list), output, whole)
}
