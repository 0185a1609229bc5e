// A link in memory that answers questions from a map.
ghost use Rattle.std.specs.Prelude.{◌≡◌, ◌≤◌, length, IfOk};
ghost use Rattle.js_host.specs.Answers.{AnswerMap};

use crate::limits::{MOST_MOVES, MOST_QUESTIONS};
use crate::replies::keep_reply;
use answer_table::AnswerTable;
use pac_ports::{Failed, Got, Link, Move, Octets, Server, Servers, StreamAnswer, Which};
use std::alloc::Global;
use std::marker::{Brand, Model, PhantomData};
use utf16_text::Memory;

/// The answers that a link gives, as contracts know them. A type for them makes each link tell what it answered,
/// whatever code it was handed to.
pub trait KnownAnswers {
    ghost answers: { AnswerMap };
}

impl KnownAnswers for Brand {
    ghost use Rattle.std.specs.FinMap as map;

    ghost answers = { map.empty };
}

/// A link in memory that replies to the first 8,192 questions that it is sent, in their order and whichever server they
/// go to, with the answer that a table has for each; where no reply is due it ticks. It has no stream. The room for 16,384
/// moves is taken beforehand: a call that would pass it fails.
#[derive(Drop)]
pub struct MapLink<'a, K: KnownAnswers> {
    known: &'a AnswerTable,
    log: Vec<Move>,
    // The replies to the questions so far.
    replies: Vec<Octets>,
    // How many of them were given.
    given: usize,
    opens: u64,
    servers: Option<Servers>,
    faults: u64,
    stream_faults: u64,
    answers: PhantomData<K>,
}

impl<'a, K: KnownAnswers> Model for MapLink<'a, K> {
    ghost use Rattle.std.specs.Prelude.{◌≤◌, ◌^◌, ◌<◌, vec_len, vec_capacity};
    ghost use Rattle.pac_generate.specs.MapLink.{MapLinkState, IsKept};
    ghost use Rattle.pac_generate.specs.declared.limits.TheConstants.{MOST_MOVES, MOST_QUESTIONS};

    ghost Value = { MapLinkState };

    ghost view = { λ l. record {
      log = l.log.items;
      opens = l.opens;
      servers = l.servers;
      faults = l.faults;
      stream_faults = l.stream_faults;
    } };

    ghost invariant = { λ l.
        (vec_len l.log ≤ MOST_MOVES) × (MOST_MOVES ≤ vec_capacity l.log) × (vec_len l.replies ≤ MOST_QUESTIONS) × (MOST_QUESTIONS ≤ vec_capacity l.replies)
        × (l.faults < 2 ^ 64) × (l.stream_faults < 2 ^ 64) × IsKept K.answers l.known.now l.log.items l.replies.items l.given };
}

impl<'a, K: KnownAnswers> MapLink<'a, K> {
    ghost use Rattle.poll_log.specs.Turns.{turns_of};
    ghost use Rattle.pac_generate.specs.Answered.{IsAnswered};
    ghost use Rattle.pac_generate.specs.MapLink.{new_map_link, with_fault};
    ghost use Rattle.pac_generate.specs.declared.limits.TheConstants.{MOST_MOVES};

    /// Takes all room that the link needs.
    pub fn new(alloc: Global, known: &'a AnswerTable) -> Result<MapLink<'a, K>, Memory>
        requires { known.now ≡ K.answers }
        ensures { IfOk result (λ l. l ≡ new_map_link) }
    {
        Ok(MapLink {
            known,
            log: Vec::with_capacity(alloc, MOST_MOVES)?,
            replies: Vec::with_capacity(alloc, MOST_QUESTIONS)?,
            given: 0,
            opens: 0,
            servers: None,
            faults: 0,
            stream_faults: 0,
            answers: PhantomData,
        })
    }

    /// The moves so far. Each event among them is the reply that was due then, or a tick where none was due.
    pub fn log(&self) -> &[Move]
        ensures moves { result.now ≡ self.now.log }
        ensures answered { IsAnswered K.answers (turns_of self.now.log) }
        ensures room { length self.now.log ≤ MOST_MOVES }
    {
        self.log.as_slice()
    }

    // Counts a fault.
    fn fail(&mut self) -> Failed
        ensures { self.new ≡ with_fault self.old }
    {
        self.faults = self.faults.saturating_add(1);
        Failed
    }
}

impl<'a, K: KnownAnswers> Link for MapLink<'a, K> {
    ghost use Rattle.pac_ports.specs.Link.{HasOpened, HasSent, HasStreamed, HasReceived};
    ghost use Rattle.pac_generate.specs.MapLink.{link_of, Opens, Sends, Streams, Receives};

    ghost state = { link_of };

    fn open(&mut self, first: Server, second: Server) -> Result<(), Failed>
        ensures opened { HasOpened (link_of self.old) (record { first = first; second = second }) result (link_of self.new) }
        ensures exactly { Opens self.old (record { first = first; second = second }) result self.new }
    {
        self.opens = self.opens.saturating_add(1);
        self.servers = Some(Servers { first, second });
        Ok(())
    }

    fn send(&mut self, to: Which, datagram: &[u8]) -> Result<(), Failed>
        requires { length datagram.now ≤ 512 }
        ensures sent { HasSent (link_of self.old) to datagram.now result (link_of self.new) }
        ensures exactly { Sends self.old to datagram.now result self.new }
    {
        if self.log.len() >= MOST_MOVES {
            return Err(self.fail());
        }
        keep_reply(self.known, &mut self.replies, datagram);
        let octets = Octets::new(datagram);
        self.log.push_reserved(Move::Sent(to, octets));
        Ok(())
    }

    fn stream_send(&mut self, octets: &[u8]) -> Result<(), StreamAnswer>
        requires { length octets.now ≤ 512 }
        ensures sent { HasStreamed (link_of self.old) octets.now result (link_of self.new) }
        ensures exactly { Streams self.old octets.now result self.new }
    {
        if self.log.len() >= MOST_MOVES {
            self.fail();
            return Err(StreamAnswer::Failed);
        }
        let octets = Octets::new(octets);
        self.log.push_reserved(Move::StreamFailed(octets));
        self.stream_faults = self.stream_faults.saturating_add(1);
        Err(StreamAnswer::Ended)
    }

    fn receive(&mut self, buffer: &mut [u8; 512], _wanted: usize) -> Result<Got, Failed>
        requires some { 1 ≤ _wanted }
        requires within { _wanted ≤ 512 }
        ensures received { HasReceived (link_of self.old) _wanted buffer.new result (link_of self.new) }
        ensures exactly { Receives K.answers self.old buffer.old result buffer.new self.new }
    {
        if self.log.len() >= MOST_MOVES {
            return Err(self.fail());
        }
        if self.given >= self.replies.len() {
            self.log.push_reserved(Move::Tick);
            return Ok(Got::Tick);
        }
        let octets = self.replies[self.given].as_slice();
        let count = octets.len();
        buffer[..count].copy_from_slice(octets);
        let reply = Octets::new(octets);
        self.log.push_reserved(Move::Given(reply));
        self.given += 1;
        Ok(Got::Datagram(count))
    }
}
