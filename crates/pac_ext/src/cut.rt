// Texts at separators.
ghost use Rattle.std.specs.Prelude.{◌≡◌, ◌<◌, ◌∷◌, ◌==◌, [], IfNone, IfSome, MatchOption, length, position};
ghost use Rattle.std.specs.List.{after_first, before_first, slice_split};

/// What stands before a separator, and what behind it.
#[derive(Clone, Copy)]
pub(crate) struct Cut<'a> {
    pub(crate) before: &'a [u16],
    pub(crate) behind: &'a [u16],
}

/// A text at the first such unit, where there is one.
pub(crate) fn cut_first(units: &[u16], separator: u16) -> Option<Cut<'_>>
    ensures before { IfSome result (λ cut. cut.before.now ≡ before_first (λ u. u == separator) units.now) }
    ensures behind { IfSome result (λ cut. cut.behind.now ≡ after_first (λ u. u == separator) units.now) }
    ensures nothing { IfNone result (after_first (λ u. u == separator) units.now ≡ []) }
    ensures pieces { MatchOption result
        (slice_split (λ u. u == separator) units.now ≡ units.now ∷ [])
        (λ cut. slice_split (λ u. u == separator) units.now ≡ cut.before.now ∷ slice_split (λ u. u == separator) cut.behind.now) }
    ensures shorter { IfSome result (λ cut. length cut.behind.now < length units.now) }
{
    match place_of(units, separator) {
        Some(place) => {
            let (before, rest) = units.split_at(place);
            let behind = &rest[1..];
            Some(Cut { before, behind })
        }
        None => None,
    }
}

fn place_of(units: &[u16], separator: u16) -> Option<usize>
    ensures { result ≡ position (λ u. u == separator) units.now }
{
    units.iter().position(|unit| *unit == separator)
}
