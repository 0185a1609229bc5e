// Pieces of a text (ECMA-262 5.1, section 15.5.4.14).
ghost use Rattle.std.specs.Prelude.{◌≡◌, IfOk, take, [], ◌∷◌};
ghost use Rattle.text_builtins.specs.Splitting.{limit_of, split_of};

use crate::call::{TextArg, TextResult, first_number, second_number};
use std::alloc::Global;
use utf16_text::{Memory, Text, TextList};
use whole_number::Whole;

/// `split`: the pieces between the places of a separator, at most so many; the whole text where there is no separator.
pub fn split(alloc: Global, receiver: &Text, args: &[TextArg]) -> Result<TextResult, Memory>
    ensures { IfOk result (λ r. r ≡ split_of receiver.now args.now) }
{
    match args {
        [TextArg::Text(separator), rest @ ..] => {
            let limit = limit(first_number(rest));
            Ok(TextResult::Texts(receiver.split(alloc, separator, limit)?))
        }
        _ => Ok(TextResult::Texts(whole(alloc, receiver, limit(second_number(args)))?)),
    }
}

fn whole(alloc: Global, receiver: &Text, limit: usize) -> Result<TextList, Memory>
    ensures { IfOk result (λ pieces. pieces ≡ take limit (receiver.now ∷ [])) }
{
    let mut pieces = TextList::new(alloc);
    if limit > 0 {
        pieces.push(alloc, receiver.copy(alloc)?)?;
    }
    Ok(pieces)
}

// 2^32 - 1 where none is said.
fn limit(number: Option<Whole>) -> usize
    ensures { result ≡ limit_of number }
{
    match number {
        Some(number) => number.to_uint32() as usize,
        None => 4294967295,
    }
}
