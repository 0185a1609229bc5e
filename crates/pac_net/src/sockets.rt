// The two sockets of a link.
ghost use Rattle.std.specs.Prelude.{◌≤◌, IfOk};
ghost use Rattle.pac_ports.specs.Link.{IsWithin};
ghost use Rattle.pac_net.specs.Received.{IsOfStream};

use crate::datagrams::Line;
use crate::stream::{read_piece, write_to};
use pac_ports::{Failed, Got, Servers, Which};
use std::io;
use std::net::Net;
use std::time::Duration;

/// How many milliseconds a receive waits in all. Where nothing comes in that time, that is a tick.
const TICK: u64 = 100;

/// In how many turns both are waited for, half of each turn for the one and half for the other.
const TURNS: u64 = 5;

/// A UDP socket, and a stream to the first server where one is open.
#[derive(Drop)]
pub(crate) struct Sockets<R: Net> {
    line: Line,
    stream: Option<R::Stream>,
    // the one that a receive looks at first
    next: Side,
}

#[derive(Clone, Copy)]
enum Side {
    Datagrams,
    Stream,
}

impl<R: Net> Sockets<R> {
    pub(crate) fn new(rt: &R, servers: Servers) -> io::Result<Sockets<R>> {
        Ok(Sockets {
            line: Line::new(rt, servers)?,
            stream: None,
            next: Side::Datagrams,
        })
    }

    /// Whether a datagram was sent whole.
    pub(crate) fn send(&self, to: Which, datagram: &[u8]) -> bool {
        self.line.send_whole(to, datagram)
    }

    /// Whether octets were sent whole over the stream. Where they weren't, none is open any more.
    pub(crate) fn stream_send(&mut self, rt: &R, octets: &[u8]) -> bool {
        let sent = write_to(rt, &mut self.stream, self.line.servers.first, octets);
        if sent.is_err() {
            self.stream = None;
        }
        sent.is_ok()
    }

    /// Waits for the UDP socket, and for the stream where one is open. At the end of the stream none is open any more.
    pub(crate) fn receive(&mut self, buffer: &mut [u8; 512], wanted: usize) -> Result<Got, Failed>
        requires some { 1 ≤ wanted }
        requires within { wanted ≤ 512 }
        ensures { IfOk result (IsWithin wanted) }
    {
        if self.stream.is_none() {
            let wait = Duration::from_millis(TICK);
            return self.line.receive(Some(wait), buffer);
        }
        self.next = match self.next {
            Side::Datagrams => Side::Stream,
            Side::Stream => Side::Datagrams,
        };
        for turn in 0..=TURNS {
            let got = self.turn(turn, buffer, wanted)?;
            if got != Got::Tick {
                return Ok(got);
            }
        }
        Ok(Got::Tick)
    }

    // What comes to the next of both, or else to the other one: in turn 0 what is there at once.
    fn turn(&mut self, turn: u64, buffer: &mut [u8; 512], wanted: usize) -> Result<Got, Failed>
        requires some { 1 ≤ wanted }
        requires within { wanted ≤ 512 }
        ensures { IfOk result (IsWithin wanted) }
    {
        let wait = match turn {
            0 => None,
            _ => Some(Duration::from_millis(TICK / TURNS / 2)),
        };
        match self.next {
            Side::Datagrams => match self.line.receive(wait, buffer)? {
                Got::Tick => Ok(self.piece(wait, buffer, wanted)),
                got => Ok(got),
            },
            Side::Stream => match self.piece(wait, buffer, wanted) {
                Got::Tick => self.line.receive(wait, buffer),
                got => Ok(got),
            },
        }
    }

    // What comes to the stream, if one is open.
    fn piece(&mut self, wait: Option<Duration>, buffer: &mut [u8; 512], wanted: usize) -> Got
        requires { wanted ≤ 512 }
        ensures { IsOfStream wanted result }
    {
        let Some(stream) = &mut self.stream else {
            return Got::Tick;
        };
        let got = read_piece(stream, wait, buffer, wanted);
        if got == Got::StreamEnd {
            self.stream = None;
        }
        got
    }
}
