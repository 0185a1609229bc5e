// The longest row of zero groups.
ghost use Rattle.std.specs.Prelude.{◌≡◌, ◌+◌, ◌≤◌, length};
ghost use Rattle.pac_ext.specs.Rows.{longest_row};

/// Zero groups in a row: where they begin, and how many they are.
#[derive(Clone, Copy)]
pub(crate) struct Row {
    pub(crate) start: usize,
    pub(crate) length: usize,
}

/// The longest row of zero groups, the first one of that length.
pub(crate) fn longest_row(groups: &[u16]) -> Row
    ensures value { result ≡ longest_row groups.now }
    ensures within { result.start + result.length ≤ length groups.now }
{
    let mut longest = Row {
        start: groups.len(),
        length: 0,
    };
    let mut length = 0;
    for place in (0..groups.len()).rev() {
        length = if groups[place] == 0 { length + 1 } else { 0 };
        if length >= longest.length {
            longest = Row {
                start: place,
                length,
            };
        }
    }
    longest
}
