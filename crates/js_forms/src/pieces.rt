// The words and units at the ends of a text.
ghost use Rattle.std.specs.Prelude.{◌≡◌, length, reverse};
ghost use Rattle.std.specs.List.{prefix_len};
ghost use Rattle.js_grammar.specs.Units as classes;
ghost use Rattle.js_forms.specs.Pieces as spec;

use utf16_text::is_digit;

fn is_word_start(unit: u16) -> bool
    ensures { result ≡ classes.is_word_start unit }
{
    matches!(unit, 97..=122 | 65..=90 | 36 | 95)
}

fn is_word_part(unit: u16) -> bool
    ensures { result ≡ classes.is_word_part unit }
{
    is_word_start(unit) || is_digit(unit)
}

fn begins_word(units: &[u16]) -> bool
    ensures { result ≡ classes.first_passes classes.is_word_start units.now }
{
    match units {
        [first, ..] => is_word_start(*first),
        [] => false,
    }
}

/// The word that stands first, or else the first unit alone.
pub fn first_piece(units: &[u16]) -> &[u16]
    ensures { result.now ≡ spec.first_piece units.now }
{
    let count = if begins_word(units) {
        word_length(units)
    } else {
        1
    };
    units.get(..count).unwrap_or(units)
}

fn word_length(units: &[u16]) -> usize
    ensures { result ≡ prefix_len classes.is_word_part units.now }
{
    units.iter().take_while(|unit| is_word_part(**unit)).count()
}

/// The word that stands last, or else the last unit alone.
pub fn last_piece(units: &[u16]) -> &[u16]
    ensures { result.now ≡ spec.last_piece units.now }
{
    let count = last_word_length(units).max(1);
    &units[units.len().saturating_sub(count)..]
}

fn last_word_length(units: &[u16]) -> usize
    ensures { result ≡ prefix_len classes.is_word_part (reverse units.now) }
{
    units
        .iter()
        .rev()
        .take_while(|unit| is_word_part(**unit))
        .count()
}
