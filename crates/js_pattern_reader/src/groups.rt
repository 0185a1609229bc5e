// How many groups a pattern keeps.
ghost use Rattle.std.specs.Prelude.{◌≡◌};
ghost use Rattle.js_pattern_reader.specs.Groups.{begins_with, groups_in};

fn begins_with(unit: u16, units: &[u16]) -> bool
    ensures { result ≡ begins_with unit units.now }
{
    match units.split_first() {
        None => false,
        Some((first, _)) => *first == unit,
    }
}

/// How many groups a pattern keeps: each `(` that no `?` follows, but behind a backslash or within a class.
pub fn groups_in(units: &[u16]) -> usize
    ensures { result ≡ groups_in units.now }
{
    let mut count: usize = 0;
    let mut escaped = false;
    let mut within = false;
    let mut rest = units;
    while let Some((unit, behind)) = rest.split_first() {
        rest = behind;
        if escaped {
            escaped = false;
        } else if within {
            escaped = *unit == 92;
            within = *unit != 93;
        } else if *unit == 40 && !begins_with(63, behind) {
            count += 1;
        } else {
            escaped = *unit == 92;
            within = *unit == 91;
        }
    }
    count
}
