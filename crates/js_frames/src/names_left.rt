// Names that are still to come.
ghost use Rattle.std.specs.Prelude.{◌≡◌, ◌∷◌, [], MatchOption};

use std::marker::Model;
use utf16_text::{Text, TextList};

/// Names that are taken one by one, from the first on. Contracts see the names that are left.
#[derive(Drop)]
pub struct NamesLeft {
    // the next one stands at the end
    backwards: Vec<Text>,
}

impl Model for NamesLeft {
    ghost use Rattle.std.specs.Prelude.{ℕ, List, reverse};

    ghost Value = { List (List ℕ) };

    ghost view = { λ names. reverse names.backwards.items };
}

impl NamesLeft {
    /// These names.
    pub fn new(names: TextList) -> NamesLeft
        ensures { result ≡ names }
    {
        let mut backwards = names.into_vec();
        backwards.reverse();
        NamesLeft { backwards }
    }

    /// Takes the next name. None where no name is left.
    pub fn next(&mut self) -> Option<Text>
        ensures { MatchOption result (self.old ≡ []) (λ name. self.old ≡ name ∷ self.new) }
    {
        self.backwards.pop()
    }
}
