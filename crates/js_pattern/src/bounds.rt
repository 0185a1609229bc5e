// How often a part is repeated.
ghost use Rattle.std.specs.Prelude.{◌≡◌};
ghost use Rattle.js_pattern.specs.Repeats.{is_none_left, smaller};

/// How often a part is repeated (ECMA-262 5.1, section 15.10.2.5), and the groups within it.
#[derive(Clone, Copy, Debug, PartialEq, Eq)]
pub struct Bounds {
    /// The number of its first group, counted from 0.
    pub from_group: u8,
    /// The number behind that of its last group.
    pub to_group: u8,
    /// How many turns must be taken.
    pub least: u16,
    /// How many may be taken; None where there is no limit.
    pub most: Option<u16>,
    /// Whether as many turns are preferred as can be, or as few.
    pub greedy: bool,
}

impl Bounds {
    /// Whether no more turns may be taken.
    pub fn is_spent(self) -> bool
        ensures { result ≡ is_none_left self.most }
    {
        self.most == Some(0)
    }

    /// The bounds behind a turn: both one less.
    pub fn smaller(self) -> Bounds
        ensures { result ≡ smaller self }
    {
        Bounds {
            least: self.least.saturating_sub(1),
            most: self.most.map(|most| most.saturating_sub(1)),
            ..self
        }
    }
}
