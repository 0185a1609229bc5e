// Texts one after another (ECMA-262 5.1, section 15.5.4.6).
ghost use Rattle.std.specs.Prelude.{◌≡◌, ◌≤◌, ◌+◌, ◌++◌, IfOk, length, min};
ghost use Rattle.std.specs.List.{flat_map};
ghost use Rattle.text_builtins.specs.Joining.{concat_of, joined, units_of};
ghost use Rattle.utf16_text.specs.declared.limits.TheConstants.{LONGEST_TEXT};

use crate::call::{TextArg, TextResult};
use std::alloc::Global;
use utf16_text::{LONGEST_TEXT, Memory, Text};

/// `concat`: the receiver and all arguments, one after another (15.5.4.6).
pub fn concat(alloc: Global, receiver: &Text, args: &[TextArg]) -> Result<TextResult, Memory>
    requires { length receiver.now ≤ LONGEST_TEXT }
    ensures { IfOk result (λ r. r ≡ concat_of receiver.now args.now) }
{
    let length = joined_length(receiver, args);
    if length > LONGEST_TEXT {
        return Ok(TextResult::TooLong);
    }
    Ok(TextResult::Text(joined(alloc, receiver, args, length)?))
}

// The number of units of all, or one more than the limit where they are more.
fn joined_length(receiver: &Text, args: &[TextArg]) -> usize
    requires { length receiver.now ≤ LONGEST_TEXT }
    ensures { result ≡ min (length (joined receiver.now args.now)) (LONGEST_TEXT + 1) }
{
    let mut length = receiver.len();
    for arg in args {
        length = (length + units(arg).len()).min(LONGEST_TEXT + 1);
    }
    length
}

fn joined(alloc: Global, receiver: &Text, args: &[TextArg], length: usize) -> Result<Text, Memory>
    ensures { IfOk result (λ t. t ≡ joined receiver.now args.now) }
{
    let mut all = Vec::with_capacity(alloc, length)?;
    all.extend_from_slice(receiver.units())?;
    for arg in args {
        all.extend_from_slice(units(arg))?;
    }
    Text::from_vec(all)
}

/// The units of an argument; none where it is no text.
pub fn units(arg: &TextArg) -> &[u16]
    ensures { result.now ≡ units_of arg.now }
{
    match arg {
        TextArg::Text(text) => text.units(),
        _ => &[],
    }
}
