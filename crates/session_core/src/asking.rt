// What runs ask.
ghost use Rattle.std.specs.Prelude.{◌≡◌, ◌++◌, IfOk, OnOk, map};
ghost use Rattle.std.specs.Option.{option_to_list};
ghost use Rattle.poll_log.specs.Questions.{first_sending};

use poll_log::{Question, Sending};
use std::alloc::Global;
use utf16_text::Memory;

/// Appends a question, if there is one.
pub(crate) fn push_asked(
    asked: &mut Vec<Question>,
    question: Option<Question>,
) -> Result<(), Memory>
    ensures { OnOk result (asked.new.items ≡ asked.old.items ++ option_to_list question) }
{
    if let Some(question) = question {
        asked.push(question)?;
    }
    Ok(())
}

/// The questions as they are sent first.
pub(crate) fn first_sendings(alloc: Global, asked: Vec<Question>) -> Result<Vec<Sending>, Memory>
    ensures { IfOk result (λ sent. sent.items ≡ map first_sending asked.items) }
{
    let mut sent = Vec::new(alloc);
    for question in asked {
        sent.push(Sending::first(question))?;
    }
    Ok(sent)
}
