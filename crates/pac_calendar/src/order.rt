// Parts of dates and times, the greatest first, in the order of time.
ghost use Rattle.std.specs.Prelude.{◌≡◌};
ghost use Rattle.pac_calendar.specs.Order.{comes_up_to, is_within, is_within_round, is_in_span};

/// From the first end to the last, both inclusive; nothing where the first comes later.
pub fn lies_within(from: &[i64], to: &[i64], at: &[i64]) -> bool
    ensures { result ≡ is_within from.now to.now at.now }
{
    is_up_to(from, at) && is_up_to(at, to)
}

/// From the first end to the last, both inclusive; past the last one of all to the first where the first end comes
/// later.
pub fn lies_within_round(from: &[i64], to: &[i64], at: &[i64]) -> bool
    ensures { result ≡ is_within_round from.now to.now at.now }
{
    if is_up_to(from, to) {
        is_up_to(from, at) && is_up_to(at, to)
    } else {
        is_up_to(from, at) || is_up_to(at, to)
    }
}

/// From the first end up to and without the second; past the last one of all to the first where the first end comes
/// later.
pub fn lies_in_span(from: &[i64], to: &[i64], at: &[i64]) -> bool
    ensures { result ≡ is_in_span from.now to.now at.now }
{
    if is_up_to(from, to) {
        is_up_to(from, at) && !is_up_to(to, at)
    } else {
        is_up_to(from, at) || !is_up_to(to, at)
    }
}

fn is_up_to(first: &[i64], second: &[i64]) -> bool
    ensures { result ≡ comes_up_to first.now second.now }
{
    first.cmp(&second).is_le()
}
