// A pattern laid on a text, again and again behind its last star.
ghost use Rattle.std.specs.Prelude.{◌≡◌, ◌<◌, ◌≤◌, length};
ghost use Rattle.pac_match.specs.Matching.{is_match, has_match_in_some_end, stands_for};
ghost use Rattle.pac_match.specs.Fitting.{IsFit};

use utf16_text::Text;

const STAR: u16 = 42;

const QUESTION_MARK: u16 = 63;

/// Whether the pattern matches the whole text: `*` is any sequence of units, the empty one too, `?` is any one unit,
/// and every other unit is itself (`shExpMatch`). No unit has another meaning, so a dot is a dot and a bracket a
/// bracket.
pub fn sh_exp_match(text: &Text, pattern: &Text) -> bool
    ensures { result ≡ is_match pattern.now text.now }
{
    match lay(text.units(), pattern.units()) {
        Fit::Whole => true,
        Fit::Misfit => false,
        Fit::UpToStar(text, pattern) => matches_some_end(text, pattern),
    }
}

/// What comes of laying a pattern on a text, unit on unit.
enum Fit<'a> {
    /// Both came to their end together.
    Whole,
    /// A unit didn't fit, or one of the two came to its end before the other.
    Misfit,
    /// The units before the pattern's first star fit. What is left of the text, and of the pattern behind the star.
    UpToStar(&'a [u16], &'a [u16]),
}

// What is behind a star has all ends of the text to try. Once it fits up to its next star, no later try of the units
// before that star can do better, since the next star can skip whatever the later try would: so the last star is the
// only one to go back to.
fn matches_some_end(text: &[u16], pattern: &[u16]) -> bool
    ensures { result ≡ has_match_in_some_end pattern.now text.now }
{
    let mut left = text;
    let mut signs = pattern;
    loop {
        match lay(left, signs) {
            Fit::Whole => return true,
            Fit::UpToStar(rest, behind) => {
                left = rest;
                signs = behind;
            }
            Fit::Misfit => match left.split_first() {
                Some((_, others)) => left = others,
                None => return false,
            },
        }
    }
}

fn lay<'a>(text: &'a [u16], pattern: &'a [u16]) -> Fit<'a>
    ensures { IsFit pattern.now text.now result }
{
    let mut left = text;
    let mut signs = pattern;
    while let Some((sign, behind)) = signs.split_first() {
        if *sign == STAR {
            return Fit::UpToStar(left, behind);
        }
        let Some((unit, others)) = left.split_first() else {
            return Fit::Misfit;
        };
        if !fits(*sign, *unit) {
            return Fit::Misfit;
        }
        left = others;
        signs = behind;
    }
    if left.is_empty() {
        Fit::Whole
    } else {
        Fit::Misfit
    }
}

fn fits(sign: u16, unit: u16) -> bool
    ensures { result ≡ stands_for sign unit }
{
    sign == QUESTION_MARK || sign == unit
}
