// The link over a UDP socket, with a stream over TCP beside it.
use crate::sockets::Sockets;
use pac_ports::{Failed, Got, Link, Server, Servers, StreamAnswer, Which};
use std::net::Net;

/// A UDP socket of any port, which is connected to nobody, and a stream to the first server, which the first send over
/// it opens. It hands on what its two servers send, and a datagram of anybody else as an empty one.
#[derive(Drop)]
pub struct UdpLink<'a, R: Net> {
    rt: &'a R,
    sockets: Option<Sockets<R>>,
    faults: u64,
    stream_faults: u64,
}

impl<'a, R: Net> UdpLink<'a, R> {
    /// A link that isn't open yet.
    pub fn new(rt: &'a R) -> UdpLink<'a, R> {
        UdpLink {
            rt,
            sockets: None,
            faults: 0,
            stream_faults: 0,
        }
    }
}

impl<R: Net> Link for UdpLink<'_, R> {
    ghost use Rattle.std.specs.Prelude.{None};

    ghost state = { λ l. record { told = None; faults = l.faults; stream_faults = l.stream_faults; sure = None } };

    fn open(&mut self, first: Server, second: Server) -> Result<(), Failed> {
        match Sockets::new(self.rt, Servers { first, second }) {
            Ok(sockets) => {
                self.sockets = Some(sockets);
                Ok(())
            }
            Err(_) => {
                self.faults = self.faults.saturating_add(1);
                Err(Failed)
            }
        }
    }

    fn send(&mut self, to: Which, datagram: &[u8]) -> Result<(), Failed> {
        let is_sent = match &self.sockets {
            Some(sockets) => sockets.send(to, datagram),
            None => false,
        };
        if is_sent {
            return Ok(());
        }
        self.faults = self.faults.saturating_add(1);
        Err(Failed)
    }

    fn stream_send(&mut self, octets: &[u8]) -> Result<(), StreamAnswer> {
        let is_sent = match &mut self.sockets {
            Some(sockets) => sockets.stream_send(self.rt, octets),
            None => false,
        };
        if is_sent {
            return Ok(());
        }
        self.stream_faults = self.stream_faults.saturating_add(1);
        Err(StreamAnswer::Ended)
    }

    fn receive(&mut self, buffer: &mut [u8; 512], wanted: usize) -> Result<Got, Failed> {
        let got = match &mut self.sockets {
            Some(sockets) => sockets.receive(buffer, wanted),
            None => Err(Failed),
        };
        if got.is_err() {
            self.faults = self.faults.saturating_add(1);
        }
        got
    }
}
