// A link in memory.
ghost use Rattle.std.specs.Prelude.{◌≡◌, ◌≤◌, length, IfOk, OnOk, OnErr};

use crate::calls::Calls;
use crate::coming::{Coming, Pending, fill};
use crate::{Failed, Got, Link, Move, MoveList, Octets, Server, Servers, StreamAnswer, Which};
use std::alloc::Global;
use std::collections::VecDeque;
use std::marker::Model;
use utf16_text::Memory;

/// An event of a link in memory: a datagram of at most 512 octets comes; nothing for a while; a piece of the stream, of
/// which each `receive` takes as much as is wanted; or the end of the stream.
#[derive(Drop)]
pub enum LinkEvent {
    Datagram(Vec<u8>),
    Tick,
    Piece(Vec<u8>),
    StreamEnd,
}

/// A link in memory that gives its events in order and then ticks for ever. The room for its moves is taken
/// beforehand: a call that would pass it fails.
#[derive(Drop)]
pub struct MemoryLink {
    log: MoveList,
    room: usize,
    events: VecDeque<Coming>,
    opens: u64,
    servers: Option<Servers>,
    faults: u64,
    stream_faults: u64,
    calls: Calls,
}

impl Model for MemoryLink {
    ghost use Rattle.std.specs.Prelude.{◌≤◌, ◌^◌, ◌<◌, vec_len, vec_capacity};
    ghost use Rattle.pac_ports.specs.MemoryLink.{MemoryLinkState};

    ghost Value = { MemoryLinkState };

    ghost view = { λ l. record {
      log = l.log.moves.items;
      room = l.room;
      events = l.events.items;
      opens = l.opens;
      servers = l.servers;
      faults = l.faults;
      stream_faults = l.stream_faults;
      calls = l.calls;
    } };

    ghost invariant = { λ l. (vec_len l.log.moves ≤ l.room) × (l.room ≤ vec_capacity l.log.moves) × (l.faults < 2 ^ 64)
        × (l.stream_faults < 2 ^ 64) };
}

impl MemoryLink {
    ghost use Rattle.pac_ports.specs.LinkEvent.{CanCome, coming_of};
    ghost use Rattle.pac_ports.specs.Link.{IsWithin, got_move};
    ghost use Rattle.pac_ports.specs.MoveList.{moves};
    ghost use Rattle.pac_ports.specs.MemoryLink.{
      event_got,
      event_move,
      filled,
      new_link,
      next_event,
      with_event,
      with_event_taken,
      with_failing_call,
      with_fault,
    };

    /// Takes the room, in moves of 512 octets each.
    pub fn new(alloc: Global, room: usize) -> Result<MemoryLink, Memory>
        ensures { IfOk result (λ l. l ≡ new_link room) }
    {
        Ok(MemoryLink {
            log: MoveList {
                moves: Vec::with_capacity(alloc, room)?,
            },
            room,
            events: VecDeque::new(alloc),
            opens: 0,
            servers: None,
            faults: 0,
            stream_faults: 0,
            calls: Calls::new(alloc),
        })
    }

    /// Puts an event behind those to come.
    pub fn event(&mut self, _alloc: Global, event: LinkEvent) -> Result<(), Memory>
        requires { CanCome event }
        ensures ok { OnOk result (self.new ≡ with_event (coming_of event) self.old) }
        ensures unchanged { OnErr result (self.new ≡ self.old) }
    {
        let coming = match event {
            LinkEvent::Datagram(octets) => Coming::Datagram(Octets::new(&octets)),
            LinkEvent::Tick => Coming::Tick,
            LinkEvent::Piece(octets) => Coming::Piece(Pending::new(octets)),
            LinkEvent::StreamEnd => Coming::StreamEnd,
        };
        self.events.push_back(coming)?;
        Ok(())
    }

    /// Lets the call of `open`, `send`, `stream_send` or `receive` with that number, from 1 and counted together, fail.
    /// From then on the link is sure of nothing.
    pub fn fail_at(&mut self, _alloc: Global, call: u64) -> Result<(), Memory>
        ensures ok { OnOk result (self.new ≡ with_failing_call call self.old) }
        ensures unchanged { OnErr result (self.new ≡ self.old) }
    {
        self.calls.fail_at(call)
    }

    /// The moves so far.
    pub fn log(&self) -> &MoveList
        ensures { moves result.now ≡ self.now.log }
    {
        &self.log
    }

    // Takes the next event.
    fn next(&mut self, buffer: &mut [u8; 512], wanted: usize) -> (Got, Move)
        requires some { 1 ≤ wanted }
        requires within { wanted ≤ 512 }
        ensures within { IsWithin wanted result.0 }
        ensures made_of { result.1 ≡ got_move buffer.new result.0 }
        ensures got { result.0 ≡ event_got wanted (next_event self.old.events) }
        ensures made { result.1 ≡ event_move wanted (next_event self.old.events) }
        ensures filled { buffer.new ≡ filled wanted (next_event self.old.events) buffer.old }
        ensures state { self.new ≡ with_event_taken wanted self.old }
    {
        match self.events.pop_front() {
            Some(Coming::Datagram(octets)) => {
                let count = fill(buffer, &octets);
                (Got::Datagram(count), Move::Given(octets))
            }
            Some(Coming::Piece(piece)) => {
                let (octets, left) = piece.split(wanted);
                let count = fill(buffer, &octets);
                if let Some(left) = left {
                    self.events.push_front(Coming::Piece(left)).unwrap();
                }
                (Got::Piece(count), Move::Piece(octets))
            }
            Some(Coming::StreamEnd) => (Got::StreamEnd, Move::StreamEnd),
            Some(Coming::Tick) => (Got::Tick, Move::Tick),
            None => (Got::Tick, Move::Tick),
        }
    }

    // Counts a fault.
    fn fail(&mut self) -> Failed
        ensures { self.new ≡ with_fault self.old }
    {
        self.faults = self.faults.saturating_add(1);
        Failed
    }
}

impl Link for MemoryLink {
    ghost use Rattle.pac_ports.specs.Link.{HasOpened, HasSent, HasStreamed, HasReceived};
    ghost use Rattle.pac_ports.specs.MemoryLink.{link_of, Opens, Sends, Streams, Receives};

    ghost state = { link_of };

    fn open(&mut self, first: Server, second: Server) -> Result<(), Failed>
        ensures opened { HasOpened (link_of self.old) (record { first = first; second = second }) result (link_of self.new) }
        ensures exactly { Opens self.old (record { first = first; second = second }) result self.new }
    {
        self.opens = self.opens.saturating_add(1);
        self.servers = Some(Servers { first, second });
        if self.calls.count() {
            return Err(self.fail());
        }
        Ok(())
    }

    fn send(&mut self, to: Which, datagram: &[u8]) -> Result<(), Failed>
        requires { length datagram.now ≤ 512 }
        ensures sent { HasSent (link_of self.old) to datagram.now result (link_of self.new) }
        ensures exactly { Sends self.old to datagram.now result self.new }
    {
        if self.calls.count() || self.log.len() >= self.room {
            return Err(self.fail());
        }
        self.log
            .moves
            .push_reserved(Move::Sent(to, Octets::new(datagram)));
        Ok(())
    }

    fn stream_send(&mut self, octets: &[u8]) -> Result<(), StreamAnswer>
        requires { length octets.now ≤ 512 }
        ensures sent { HasStreamed (link_of self.old) octets.now result (link_of self.new) }
        ensures exactly { Streams self.old octets.now result self.new }
    {
        let fails = self.calls.count();
        if self.log.len() >= self.room {
            self.fail();
            return Err(StreamAnswer::Failed);
        }
        let octets = Octets::new(octets);
        if fails {
            self.stream_faults = self.stream_faults.saturating_add(1);
            self.log.moves.push_reserved(Move::StreamFailed(octets));
            return Err(StreamAnswer::Ended);
        }
        self.log.moves.push_reserved(Move::StreamSent(octets));
        Ok(())
    }

    fn receive(&mut self, buffer: &mut [u8; 512], wanted: usize) -> Result<Got, Failed>
        requires some { 1 ≤ wanted }
        requires within { wanted ≤ 512 }
        ensures received { HasReceived (link_of self.old) wanted buffer.new result (link_of self.new) }
        ensures exactly { Receives self.old wanted buffer.old result buffer.new self.new }
    {
        if self.calls.count() || self.log.len() >= self.room {
            return Err(self.fail());
        }
        let (got, made) = self.next(buffer, wanted);
        self.log.moves.push_reserved(made);
        Ok(got)
    }
}
