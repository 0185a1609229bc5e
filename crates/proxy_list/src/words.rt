// Words, and what stands before a unit.
ghost use Rattle.std.specs.Prelude.{◌≡◌, ◌≤◌, ◌∷◌, [], IfNone, IfSome, bytes_eq, length, not};
ghost use Rattle.std.specs.List.{prefix_len};
ghost use Rattle.proxy_list.specs.Proxies.{is_blank, length_before, words_of};

pub(crate) const COLON: u16 = 58;

pub(crate) const SEMICOLON: u16 = 59;

const SPACE: u16 = 32;

const TAB: u16 = 9;

/// The first word, and what stands behind it.
pub(crate) fn first_word(units: &[u16]) -> Option<(&[u16], &[u16])>
    ensures some { IfSome result (λ found. words_of units.now ≡ found.0.now ∷ words_of found.1.now) }
    ensures none { IfNone result (words_of units.now ≡ []) }
{
    let (_, word) = units.split_at(blanks_length(units));
    match word {
        [] => None,
        [_, ..] => Some(word.split_at(word_length(word))),
    }
}

fn blanks_length(units: &[u16]) -> usize
    ensures value { result ≡ prefix_len is_blank units.now }
    ensures within { result ≤ length units.now }
{
    units.iter().take_while(|unit| is_blank(**unit)).count()
}

fn word_length(units: &[u16]) -> usize
    ensures value { result ≡ prefix_len (λ u. not (is_blank u)) units.now }
    ensures within { result ≤ length units.now }
{
    units.iter().take_while(|unit| !is_blank(**unit)).count()
}

fn is_blank(unit: u16) -> bool
    ensures { result ≡ is_blank unit }
{
    unit == SPACE || unit == TAB
}

/// How many units stand before the first `end`.
pub(crate) fn length_before(end: u16, units: &[u16]) -> usize
    ensures value { result ≡ length_before end units.now }
    ensures within { result ≤ length units.now }
{
    units.iter().take_while(|unit| **unit != end).count()
}

/// Whether the units are those of an ASCII text.
pub(crate) fn is_spelled(units: &[u16], letters: &[u8]) -> bool
    ensures { result ≡ bytes_eq units.now letters.now }
{
    let mut left = units;
    let mut right = letters;
    loop {
        match (left, right) {
            ([], []) => return true,
            ([unit, units @ ..], [letter, letters @ ..]) if *unit == u16::from(*letter) => {
                left = units;
                right = letters;
            }
            _ => return false,
        }
    }
}
