// Texts with a separator between them.
ghost use Rattle.std.specs.Prelude.{◌≡◌, ◌⊎◌, IfOk, IfErr, Ok, Err, length, min, ◌+◌};
ghost use Rattle.array_builtins.specs.Joining.{join_result, joined_behind};
ghost use Rattle.utf16_text.specs.declared.limits.TheConstants.{LONGEST_TEXT};

use std::alloc::Global;
use thiserror::Error;
use utf16_text::{LONGEST_TEXT, Memory, Text, TextList};

/// Why texts are not joined.
#[derive(Clone, Copy, Debug, PartialEq, Eq, Error)]
pub enum JoinAnswer {
    /// The text would have more than 262,144 units. It isn't made.
    #[error("the text is too long")]
    TooLong,
    /// Memory was refused.
    #[error("out of memory")]
    Memory,
}

impl From<Memory> for JoinAnswer {
    ghost use Rattle.std.specs.Prelude.{◌≡◌};
    ghost use Rattle.array_builtins.specs.declared.joining.JoinAnswer.TheVariants as answer;

    ghost from_gives = { λ _ a. a ≡ answer.Memory };

    fn from(_memory: Memory) -> JoinAnswer {
        JoinAnswer::Memory
    }
}

/// The texts, one after another, with the separator between them (ECMA-262 5.1, section 15.4.4.5, steps 6 to 11).
/// TooLong comes exactly where the text would have more than 262,144 units.
pub fn join_texts(alloc: Global, texts: &TextList, separator: &Text) -> Result<Text, JoinAnswer>
    ensures ok { IfOk result (λ t. join_result separator.now texts.now ≡ Ok t) }
    ensures err { IfErr result (λ e. (e ≡ JoinAnswer.Memory) ⊎ (join_result separator.now texts.now ≡ Err e)) }
{
    let Some((first, rest)) = texts.as_slice().split_first() else {
        return Ok(Text::from_units(alloc, &[])?);
    };
    let length = joined_length(first, rest, separator);
    if length > LONGEST_TEXT {
        return Err(JoinAnswer::TooLong);
    }
    Ok(joined(alloc, first, rest, separator, length)?)
}

// The number of units of all, or one more than the limit where they are more.
fn joined_length(first: &Text, rest: &[Text], separator: &Text) -> usize
    ensures { result ≡ min (length (joined_behind separator.now first.now rest.now)) (LONGEST_TEXT + 1) }
{
    let gap = separator.len().min(LONGEST_TEXT + 1);
    let mut length = first.len().min(LONGEST_TEXT + 1);
    for text in rest {
        length = (length + gap + text.len().min(LONGEST_TEXT + 1)).min(LONGEST_TEXT + 1);
    }
    length
}

fn joined(
    alloc: Global,
    first: &Text,
    rest: &[Text],
    separator: &Text,
    length: usize,
) -> Result<Text, Memory>
    ensures { IfOk result (λ t. t ≡ joined_behind separator.now first.now rest.now) }
{
    let mut all = Vec::with_capacity(alloc, length)?;
    all.extend_from_slice(first.units())?;
    for text in rest {
        all.extend_from_slice(separator.units())?;
        all.extend_from_slice(text.units())?;
    }
    Text::from_vec(all)
}
