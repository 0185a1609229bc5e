// The ways in which a part of a script may end.
ghost use Rattle.std.specs.Prelude.{◌≡◌};
ghost use Rattle.js_ends.specs.Ways as spec;

/// The ways in which statements may end: the types of a completion but `throw` (ECMA-262 5.1, section 8.9).
#[derive(Clone, Copy, Debug, PartialEq, Eq)]
pub struct Ends {
    /// What stands behind the statements comes next.
    pub completes: bool,
    pub breaks: bool,
    pub continues: bool,
    /// By `return` without a value.
    pub returns_nothing: bool,
    pub returns_value: bool,
}

impl Ends {
    /// No way at all, as that of `throw`.
    pub fn none() -> Ends
        ensures { result ≡ spec.no_end }
    {
        Ends {
            completes: false,
            breaks: false,
            continues: false,
            returns_nothing: false,
            returns_value: false,
        }
    }

    /// The one way of what does something and goes on.
    pub fn completion() -> Ends
        ensures { result ≡ spec.completion }
    {
        Ends {
            completes: true,
            breaks: false,
            continues: false,
            returns_nothing: false,
            returns_value: false,
        }
    }

    /// The one way of `break`.
    pub fn breaking() -> Ends
        ensures { result ≡ spec.breaking }
    {
        Ends {
            completes: false,
            breaks: true,
            continues: false,
            returns_nothing: false,
            returns_value: false,
        }
    }

    /// The one way of `continue`.
    pub fn continuing() -> Ends
        ensures { result ≡ spec.continuing }
    {
        Ends {
            completes: false,
            breaks: false,
            continues: true,
            returns_nothing: false,
            returns_value: false,
        }
    }

    /// The one way of `return`, with a value or without one.
    pub fn returning(value: bool) -> Ends
        ensures { result ≡ spec.returning value }
    {
        Ends {
            completes: false,
            breaks: false,
            continues: false,
            returns_nothing: !value,
            returns_value: value,
        }
    }

    /// The ways of one of two parts.
    #[tactic(auto, unfolding(crate::specs::Ways::either))]
    pub fn either(self, other: Ends) -> Ends
        ensures { result ≡ spec.either self other }
    {
        Ends {
            completes: self.completes || other.completes,
            breaks: self.breaks || other.breaks,
            continues: self.continues || other.continues,
            returns_nothing: self.returns_nothing || other.returns_nothing,
            returns_value: self.returns_value || other.returns_value,
        }
    }

    /// The jumps of this part, and all ways of the next.
    #[tactic(auto, unfolding(crate::specs::Ways::into))]
    pub fn into_next(self, next: Ends) -> Ends
        ensures { result ≡ spec.into self next }
    {
        Ends {
            completes: next.completes,
            ..self.either(next)
        }
    }

    /// The ways of this part, and of the next where this one completes.
    #[tactic(auto, unfolding(crate::specs::Ways::followed_by))]
    pub fn followed_by(self, next: Ends) -> Ends
        ensures { result ≡ spec.followed_by self next }
    {
        if self.completes {
            self.into_next(next)
        } else {
            self
        }
    }

    /// The ways of a loop with this body, which completes by itself or not.
    #[tactic(auto, unfolding(crate::specs::Ways::loop_of))]
    pub fn repeated(self, completes: bool) -> Ends
        ensures { result ≡ spec.loop_of completes self }
    {
        Ends {
            completes: completes || self.breaks,
            breaks: false,
            continues: false,
            ..self
        }
    }

    /// The ways of a `switch` with these clauses.
    #[tactic(auto, unfolding(crate::specs::Ways::switch_of))]
    pub fn switched(self) -> Ends
        ensures { result ≡ spec.switch_of self }
    {
        Ends {
            completes: self.completes || self.breaks,
            breaks: false,
            ..self
        }
    }
}
