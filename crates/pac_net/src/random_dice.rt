// Numbers of questions that are hard to foresee. They are not told.
use pac_ports::Dice;
use rand::rngs::StdRng;
use rand::{RngExt, make_rng};
use rand_core::SeedableRng;
use std::random::RandomSource;
use std::time::{Clock, SystemTime, UNIX_EPOCH};

/// A generator that was seeded once, by the machine's random bytes, or by its clock where it has none to give.
#[derive(Drop)]
pub struct RandomDice {
    generator: StdRng,
}

impl RandomDice {
    pub fn new<R: RandomSource + Clock>(rt: &R) -> RandomDice {
        let generator = match make_rng(rt) {
            Ok(generator) => generator,
            Err(_) => StdRng::seed_from_u64(nanoseconds(rt)),
        };
        RandomDice { generator }
    }
}

// The nanoseconds of the machine's clock, as far as they fit; 0 where it can't be read.
fn nanoseconds<R: Clock>(rt: &R) -> u64 {
    let now = SystemTime::now(rt).ok();
    match now.and_then(|now| now.duration_since(UNIX_EPOCH).ok()) {
        Some(since) => since.as_secs() ^ (u64::from(since.subsec_nanos()) << 32),
        None => 0,
    }
}

impl Dice for RandomDice {
    ghost use Rattle.std.specs.Prelude.{None};

    ghost told = { λ d. None };

    fn id(&mut self) -> u16 {
        self.generator.random()
    }
}
