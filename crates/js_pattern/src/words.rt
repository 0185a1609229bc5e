// The units of words.
ghost use Rattle.std.specs.Prelude.{◌≡◌};
ghost use Rattle.js_pattern.specs.Leaves.{is_word};

/// Whether a unit is a digit, an ASCII letter or `_` (IsWordChar).
pub fn is_word(unit: u16) -> bool
    ensures { result ≡ is_word unit }
{
    matches!(unit, 48..=57 | 65..=90 | 95 | 97..=122)
}
