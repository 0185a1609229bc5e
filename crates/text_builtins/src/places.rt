// Where a part stands in a text (ECMA-262 5.1, sections 15.5.4.7 and 15.5.4.8).
ghost use Rattle.std.specs.Prelude.{◌≡◌, ◌≤◌, IfSome, length};
ghost use Rattle.text_builtins.specs.Places.{index_of, last_index_of, place_number};
ghost use Rattle.utf16_text.specs.declared.limits.TheConstants.{LONGEST_TEXT};

use crate::call::{TextArg, TextResult, first_number};
use crate::parts::place;
use utf16_text::Text;
use whole_number::Whole;

/// `indexOf`: the first place at or behind a position, or -1 (15.5.4.7).
pub fn index_of(receiver: &Text, args: &[TextArg]) -> TextResult
    requires { length receiver.now ≤ LONGEST_TEXT }
    ensures { result ≡ index_of receiver.now args.now }
{
    match args {
        [TextArg::Text(part), rest @ ..] => {
            let from = place(receiver.len(), first_number(rest), 0);
            number_of(receiver.find(part, from))
        }
        _ => number_of(None),
    }
}

/// `lastIndexOf`: the last place at or before a position, or -1; where no position is said, it is the end (15.5.4.8).
pub fn last_index_of(receiver: &Text, args: &[TextArg]) -> TextResult
    requires { length receiver.now ≤ LONGEST_TEXT }
    ensures { result ≡ last_index_of receiver.now args.now }
{
    match args {
        [TextArg::Text(part), rest @ ..] => {
            let last = place(receiver.len(), first_number(rest), receiver.len());
            number_of(receiver.rfind(part, last))
        }
        _ => number_of(None),
    }
}

fn number_of(found: Option<usize>) -> TextResult
    requires { IfSome found (λ at. at ≤ LONGEST_TEXT) }
    ensures { result ≡ place_number found }
{
    match found {
        Some(at) => TextResult::Number(Whole::from(at as u32)),
        None => TextResult::Number(Whole::from(-1_i32)),
    }
}
