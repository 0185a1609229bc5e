// What a call of `pac` is handed beside files and a sink.
use crate::coming::link_over;
use anyhow::Result;
use pac_ports::{FixedClock, ListDice, MemoryLink, MoveList};
use std::alloc::Global;

/// A link in memory, a clock that stands still, and numbers for questions.
#[derive(Drop)]
pub(crate) struct Network {
    pub(crate) link: MemoryLink,
    pub(crate) clock: FixedClock,
    pub(crate) dice: ListDice,
}

impl Network {
    /// A link without room for a move, a clock at this moment, and no number.
    pub(crate) fn none(alloc: Global, moment: i64) -> Result<Network> {
        Ok(Network {
            link: MemoryLink::new(alloc, 0)?,
            clock: FixedClock::new(moment),
            dice: ListDice::new(Vec::new(alloc)),
        })
    }

    /// The clock stands in the first second of 1970. The dice give these numbers, which are parted by blanks, and then
    /// those that follow the last one.
    pub(crate) fn new(alloc: Global, dice: &str, coming: &str) -> Result<Network> {
        Ok(Network {
            link: link_over(alloc, coming)?,
            clock: FixedClock::new(0),
            dice: ListDice::new(numbers(alloc, dice)?),
        })
    }

    /// The moves of the link so far.
    pub(crate) fn log(&self) -> &MoveList {
        self.link.log()
    }
}

fn numbers(alloc: Global, field: &str) -> Result<Vec<u16>> {
    let mut numbers = Vec::new(alloc);
    for number in field.split_whitespace() {
        numbers.push(number.parse::<u16>()?)?;
    }
    follow(&mut numbers)?;
    Ok(numbers)
}

// Appends the 300 numbers that follow the last one.
fn follow(numbers: &mut Vec<u16>) -> Result<()> {
    let last = numbers.last().copied().unwrap_or(0);
    for step in 1..=300 {
        numbers.push(last.wrapping_add(step))?;
    }
    Ok(())
}
