// Flags.
ghost use Rattle.std.specs.Prelude.{if◌then◌else◌, Ok};
ghost use Rattle.js_pattern_reader.specs.Flags.{flags_of, with_flag};
ghost use Rattle.js_pattern_reader.specs.Answers.{Gives, bad};

use crate::PatternAnswer;
use js_pattern::Flags;
use utf16_text::Text;

// A flag may stand once.
fn once(twice: bool, flags: Flags) -> Result<Flags, PatternAnswer>
    ensures { Gives (λ f. f) result (if twice then bad else Ok flags) }
{
    if twice {
        Err(PatternAnswer::Bad)
    } else {
        Ok(flags)
    }
}

fn with_flag(unit: u16, flags: Flags) -> Result<Flags, PatternAnswer>
    ensures { Gives (λ f. f) result (with_flag unit flags) }
{
    let mut more = flags;
    match unit {
        103 => {
            more.global = true;
            once(flags.global, more)
        }
        105 => {
            more.ignore_case = true;
            once(flags.ignore_case, more)
        }
        109 => {
            more.multiline = true;
            once(flags.multiline, more)
        }
        _ => Err(PatternAnswer::Bad),
    }
}

/// The flags, each of which is known and stands once.
pub fn read_flags(flags: &Text) -> Result<Flags, PatternAnswer>
    ensures { Gives (λ f. f) result (flags_of flags.now) }
{
    let mut read = Flags {
        global: false,
        ignore_case: false,
        multiline: false,
    };
    let mut rest = flags.units();
    while let Some((unit, others)) = rest.split_first() {
        match with_flag(*unit, read) {
            Err(answer) => return Err(answer),
            Ok(more) => {
                read = more;
                rest = others;
            }
        }
    }
    Ok(read)
}
