// Which events are beats.
ghost use Rattle.std.specs.Prelude.{◌≡◌, List};
ghost use Rattle.poll_log.specs.Turns.{Outgoing, Turns, Then};
ghost use Rattle.poll_log.specs.Beats.{is_beat};
ghost use Rattle.poll_loop.specs.Events.{event_of};
ghost use Rattle.poll_loop.specs.Counting.{HasCounted};

use crate::Event;
use poll_log::FLOOD;
use std::marker::Model;

/// Counts the datagrams since the last tick or the last beat, which is how beats are known.
#[derive(Drop)]
pub struct BeatCounter {
    datagrams: u64,
}

impl Model for BeatCounter {
    ghost use Rattle.std.specs.Prelude.{ℕ};

    ghost Value = { ℕ };

    ghost view = { λ c. c.datagrams };
}

impl BeatCounter {
    /// No event was counted yet.
    pub fn new() -> BeatCounter
        ensures { result ≡ 0 }
    {
        BeatCounter { datagrams: 0 }
    }

    /// Counts an event, and answers whether it is a beat.
    pub fn count(&mut self, event: Event<'_>) -> bool
        ensures beat { (turns : Turns) → HasCounted self.old turns → result ≡ is_beat turns (event_of event.entry) }
        ensures counted { (turns : Turns) (sent : List Outgoing) → HasCounted self.old turns →
            HasCounted self.new (Then turns (event_of event.entry) sent) }
    {
        match event {
            Event::Datagram(_) if self.datagrams < FLOOD - 1 => {
                self.datagrams += 1;
                false
            }
            _ => {
                self.datagrams = 0;
                true
            }
        }
    }
}
