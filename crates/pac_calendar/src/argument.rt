// The arguments of a range: whose clock counts, and the names that they may be.
ghost use Rattle.std.specs.Prelude.{◌≡◌, ◌<◌, length, IfSome, codes, position};
ghost use Rattle.pac_calendar.specs.Argument.{ends_in_gmt, clock_of, form_of, is_text_of, place_of, same};

use crate::moment::{Civil, Moments};
use utf16_text::Text;
use whole_number::Whole;

/// An argument of a range.
#[derive(Drop)]
pub enum CalendarArg {
    Number(Whole),
    Text(Text),
    /// A value of another type: no form of a range has one.
    Other,
}

/// What the clock shows that counts: the one in GMT where the last argument is the text `GMT`, else the local one.
pub fn clock(now: &Moments, args: &[CalendarArg]) -> Civil
    ensures { result ≡ clock_of now.now args.now }
{
    if has_gmt(args) { now.gmt } else { now.local }
}

/// The arguments without a last `GMT`.
pub fn form(args: &[CalendarArg]) -> &[CalendarArg]
    ensures { result.now ≡ form_of args.now }
{
    if has_gmt(args) {
        &args[..args.len() - 1]
    } else {
        args
    }
}

fn has_gmt(args: &[CalendarArg]) -> bool
    ensures { result ≡ ends_in_gmt args.now }
{
    match args.split_last() {
        Some((last, _)) => is_text(last, b"GMT"),
        None => false,
    }
}

fn is_text(arg: &CalendarArg, letters: &[u8]) -> bool
    ensures { result ≡ is_text_of letters.now arg.now }
{
    match arg {
        CalendarArg::Text(text) => is_spelled(text.units(), letters),
        _ => false,
    }
}

/// The place of a name among others, counted from 0. Names are in upper case alone.
pub fn place(arg: &CalendarArg, names: &[[u8; 3]]) -> Option<usize>
    ensures place { result ≡ place_of names.now arg.now }
    ensures within { IfSome result (λ k. k < length names.now) }
{
    names.iter().position(|name| is_text(arg, name))
}

// Whether the units are those of an ASCII text.
fn is_spelled(units: &[u16], letters: &[u8]) -> bool
    ensures { result ≡ same units.now letters.now }
{
    let mut left = units;
    let mut right = letters;
    loop {
        match (left, right) {
            ([], []) => return true,
            ([unit, units @ ..], [letter, letters @ ..]) if *unit == u16::from(*letter) => {
                left = units;
                right = letters;
            }
            _ => return false,
        }
    }
}
