// Dice that count.
ghost use Rattle.std.specs.Prelude.{◌≡◌};

use pac_ports::Dice;
use std::marker::Model;

/// Dice that give 0, 1, 2 and so on, in 16 bits: behind 65,535 comes 0 again.
#[derive(Drop)]
pub struct CountingDice {
    count: u64,
}

/// How many numbers were given; the count stays at its last number.
impl Model for CountingDice {
    ghost use Rattle.std.specs.Prelude.{ℕ};

    ghost Value = { ℕ };

    ghost view = { λ d. d.count };
}

impl CountingDice {
    /// Dice that gave no number yet.
    pub fn new() -> CountingDice
        ensures { result ≡ 0 }
    {
        CountingDice { count: 0 }
    }

    /// How many numbers were given.
    pub fn count(&self) -> u64
        ensures { result ≡ self.now }
    {
        self.count
    }
}

impl Dice for CountingDice {
    ghost use Rattle.std.specs.Prelude.{Some};
    ghost use Rattle.pac_ports.specs.Dice.{Gave};
    ghost use Rattle.pac_ports.specs.Faults.{raised};
    ghost use Rattle.memory_talk.specs.Numbers.{counted, number_after};

    ghost told = { λ d. Some (counted d) };

    fn id(&mut self) -> u16
        ensures gave { Gave (Some (counted self.old)) result (Some (counted self.new)) }
        ensures number { result ≡ number_after self.old }
        ensures raised { self.new ≡ raised self.old }
    {
        let number = (self.count % 65_536) as u16;
        self.count = self.count.saturating_add(1);
        number
    }
}
