//! What scripts are handed: shell expressions, ranges of weekdays, dates and times, the functions over a host, what a
//! script sees of a URL, files of names, batches, and what is generated of such. A table of calls with their answers.
//!
//! The cases are those of the page on the Netscape Navigator Proxy Auto-Config format, those of the URL Standard, and
//! those in which docs/ decides what they leave open. It reads them from its input, and stands on pac_match,
//! pac_calendar, pac_functions, proxy_list, batch_text and pac_generate.
#![tactic(auto)]

mod batches;
mod clocks;
mod functions;
mod generated;
mod names;
mod ranges;
mod urls;

use anyhow::{Result, bail};
use case_rows::text;
use pac_match::sh_exp_match;
use std::alloc::Global;

fn main(rt: HostRuntime) -> Result<()> {
    case_rows::run(&rt, answer)
}

fn answer(alloc: Global, part: &str, fields: &[&str]) -> Result<String> {
    match part {
        "shell expressions" => matches(alloc, fields),
        "weekdays" => ranges::weekdays(alloc, fields),
        "dates" => ranges::dates(alloc, fields),
        "times" => ranges::times(alloc, fields),
        "a chosen clock" => ranges::at_moment(alloc, fields),
        "moments" => clocks::shown(alloc, fields),
        "zones" => clocks::seconds(alloc, fields),
        "calls" => functions::called(alloc, fields),
        "calls after other names" => functions::called_late(alloc, fields),
        "calls without a clock" => functions::called_untold(alloc, fields),
        "files of names" => names::told(alloc, fields),
        "long files of names" => names::told_behind(alloc, fields),
        "names told whole" => names::told_whole(alloc, fields),
        "batches" => batches::asked(alloc, fields),
        "long batches" => batches::counted(alloc, fields),
        "generated scripts" => generated::script(alloc, fields),
        "generated batches" => generated::batch(alloc, fields),
        "generated answers" => generated::answers(alloc, fields),
        "replies of a link" => generated::replies(alloc, fields),
        "summaries" => generated::summary(alloc, fields),
        "urls" => urls::seen(alloc, fields),
        "long urls" => urls::length(alloc, fields),
        _ => bail!("no part {part}"),
    }
}

/// Whether a shell expression matches a text.
fn matches(alloc: Global, fields: &[&str]) -> Result<String> {
    let [units, expression] = fields else {
        bail!("a text and an expression");
    };
    let matched = sh_exp_match(&text(alloc, units)?, &text(alloc, expression)?);
    Ok(format!(in alloc; "{matched}")?)
}
