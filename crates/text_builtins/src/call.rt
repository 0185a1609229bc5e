// A call of a method of texts.
ghost use Rattle.std.specs.Prelude.{◌≡◌, ◌≤◌, IfOk, length};
ghost use Rattle.text_builtins.specs.Arguments.{first_number_of, second_number_of};
ghost use Rattle.text_builtins.specs.Call.{text_result};
ghost use Rattle.utf16_text.specs.declared.limits.TheConstants.{LONGEST_TEXT};

use crate::joining::concat;
use crate::parts::{char_at, char_code_at, slice, substr, substring};
use crate::places::{index_of, last_index_of};
use crate::replacing::replace;
use crate::splitting::split;
use std::alloc::Global;
use utf16_text::{Memory, Text, TextList};
use whole_number::Whole;

/// The methods of texts.
#[derive(Clone, Copy, Debug, PartialEq, Eq)]
pub enum TextMethod {
    CharAt,
    CharCodeAt,
    Concat,
    IndexOf,
    LastIndexOf,
    Replace,
    Slice,
    Split,
    Substr,
    Substring,
    ToLowerCase,
    ToString,
    ToUpperCase,
    Trim,
    ValueOf,
}

/// An argument, converted already.
#[derive(Drop)]
pub enum TextArg {
    /// The argument is left out.
    Absent,
    Text(Text),
    Number(Whole),
}

/// What a method of texts gives.
#[derive(Drop)]
pub enum TextResult {
    Text(Text),
    Texts(TextList),
    Number(Whole),
    /// `charCodeAt` outside the text.
    NotANumber,
    /// The text would have more than 262,144 units. It isn't made.
    TooLong,
}

/// Calls a method on a text. A position, a length or a limit is a number, or left out; a part to be looked for, a
/// replacement and what is appended are texts. An argument of another kind counts as left out, and a part that is left
/// out stands nowhere. TooLong comes exactly where the resulting text would have more than 262,144 units.
pub fn call_text(
    alloc: Global,
    which: TextMethod,
    receiver: &Text,
    args: &[TextArg],
) -> Result<TextResult, Memory>
    requires { length receiver.now ≤ LONGEST_TEXT }
    ensures { IfOk result (λ r. r ≡ text_result which receiver.now args.now) }
{
    match which {
        TextMethod::CharAt => char_at(alloc, receiver, args),
        TextMethod::CharCodeAt => Ok(char_code_at(receiver, args)),
        TextMethod::Concat => concat(alloc, receiver, args),
        TextMethod::IndexOf => Ok(index_of(receiver, args)),
        TextMethod::LastIndexOf => Ok(last_index_of(receiver, args)),
        TextMethod::Replace => replace(alloc, receiver, args),
        TextMethod::Slice => slice(alloc, receiver, args),
        TextMethod::Split => split(alloc, receiver, args),
        TextMethod::Substr => substr(alloc, receiver, args),
        TextMethod::Substring => substring(alloc, receiver, args),
        TextMethod::ToLowerCase => Ok(TextResult::Text(receiver.lower(alloc)?)),
        TextMethod::ToUpperCase => Ok(TextResult::Text(receiver.upper(alloc)?)),
        TextMethod::Trim => Ok(TextResult::Text(receiver.trim(alloc)?)),
        TextMethod::ToString => Ok(TextResult::Text(receiver.copy(alloc)?)),
        TextMethod::ValueOf => Ok(TextResult::Text(receiver.copy(alloc)?)),
    }
}

/// The first argument, where it is a number.
pub fn first_number(args: &[TextArg]) -> Option<Whole>
    ensures { result ≡ first_number_of args.now }
{
    match args {
        [TextArg::Number(number), ..] => Some(*number),
        _ => None,
    }
}

/// The second argument, where it is a number.
pub fn second_number(args: &[TextArg]) -> Option<Whole>
    ensures { result ≡ second_number_of args.now }
{
    match args {
        [_, rest @ ..] => first_number(rest),
        [] => None,
    }
}
