// Links in memory.
ghost use Rattle.std.specs.Prelude.{◌≡◌, Some};

use pac_ports::{
    Failed, Got, Link, LinkEvent, MemoryLink, Move, MoveList, Octets, Server, StreamAnswer, Which,
};
use std::alloc::Global;
use std::test::Fail;

const FIRST: Server = Server {
    address: 0x7f00_0001,
    port: 53,
};

const SECOND: Server = Server {
    address: 0x7f00_0002,
    port: 5353,
};

/// The moves of a list in one line.
fn in_one_line(alloc: Global, moves: &MoveList) -> Result<String, Fail> {
    let mut line = String::new(alloc);
    for at in 0..moves.len() {
        let (name, octets) = in_words(moves.at(at));
        let word = match octets {
            Some(octets) => format!(in alloc; "{name} {:?} ", octets.as_slice())?,
            None => format!(in alloc; "{name} ")?,
        };
        line.push_str(&word)?;
    }
    Ok(line)
}

/// The name of a move, and its octets.
fn in_words(made: &Move) -> (&'static str, Option<&Octets>) {
    match made {
        Move::Sent(Which::First, octets) => ("first", Some(octets)),
        Move::Sent(Which::Second, octets) => ("second", Some(octets)),
        Move::Given(octets) => ("given", Some(octets)),
        Move::Tick => ("tick", None),
        Move::StreamSent(octets) => ("streamed", Some(octets)),
        Move::StreamFailed(octets) => ("failed", Some(octets)),
        Move::Piece(octets) => ("piece", Some(octets)),
        Move::StreamEnd => ("end", None),
    }
}

// Opens a link. Whether that succeeds or not, it tells both servers in their order: a caller knows so from contracts
// alone.
fn open(link: &mut MemoryLink) -> Result<(), Failed>
    ensures { link.new.servers ≡ Some (record { first = FIRST; second = SECOND }) }
{
    match link.open(FIRST, SECOND) {
        Ok(()) => Ok(()),
        Err(Failed) => Err(Failed),
    }
}

#[test]
fn events_come_in_order_and_then_ticks(rt: HostRuntime) -> Result<(), Fail> {
    let alloc = rt.alloc();
    let mut link = MemoryLink::new(alloc, 6)?;
    link.event(alloc, LinkEvent::Datagram([1, 2, 3].to_vec(alloc)?))?;
    link.event(alloc, LinkEvent::Tick)?;
    link.event(alloc, LinkEvent::Datagram(Vec::new(alloc)))?;
    assert_eq!(rt; open(&mut link), Ok(()));
    assert_eq!(rt; link.send(Which::First, b"?"), Ok(()));
    assert_eq!(rt; link.send(Which::Second, b"!"), Ok(()));
    let mut buffer = [9; 512];
    for wanted in [Got::Datagram(3), Got::Tick, Got::Datagram(0), Got::Tick] {
        assert!(rt; link.receive(&mut buffer, 512) == Ok(wanted));
    }
    assert_eq!(rt; &buffer[..4], [1, 2, 3, 9].as_slice());
    // The room is full.
    assert!(rt; link.receive(&mut buffer, 512) == Err(Failed));
    assert_eq!(rt; link.send(Which::First, b"?"), Err(Failed));
    assert_eq!(rt;
        in_one_line(alloc, link.log())?.as_str(),
        "first [63] second [33] given [1, 2, 3] tick given [] tick "
    );
    Ok(())
}

// Each receive takes as much of a piece as is wanted; the rest stays before all that is to come.
#[test]
fn a_piece_is_cut_to_what_is_wanted(rt: HostRuntime) -> Result<(), Fail> {
    let alloc = rt.alloc();
    let mut link = MemoryLink::new(alloc, 9)?;
    link.event(alloc, LinkEvent::Piece([1, 2, 3, 4, 5].to_vec(alloc)?))?;
    link.event(alloc, LinkEvent::Datagram([6].to_vec(alloc)?))?;
    link.event(alloc, LinkEvent::Piece([7, 8].to_vec(alloc)?))?;
    link.event(alloc, LinkEvent::StreamEnd)?;
    assert_eq!(rt; link.stream_send(b"?"), Ok(()));
    let mut buffer = [9; 512];
    // how much is wanted, what comes, and what stands in the buffer then
    let cases = [
        (2, Got::Piece(2), [1, 2, 9, 9]),
        (1, Got::Piece(1), [3, 2, 9, 9]),
        (512, Got::Piece(2), [4, 5, 9, 9]),
        (1, Got::Datagram(1), [6, 5, 9, 9]),
        (2, Got::Piece(2), [7, 8, 9, 9]),
        (1, Got::StreamEnd, [7, 8, 9, 9]),
        (1, Got::Tick, [7, 8, 9, 9]),
    ];
    for (wanted, got, front) in cases {
        assert!(rt; link.receive(&mut buffer, wanted) == Ok(got));
        assert!(rt; buffer.starts_with(&front));
    }
    assert_eq!(rt;
        in_one_line(alloc, link.log())?.as_str(),
        "streamed [63] piece [1, 2] piece [3] piece [4, 5] given [6] piece [7, 8] end tick "
    );
    Ok(())
}

#[test]
fn a_stream_ends_at_a_listed_call(rt: HostRuntime) -> Result<(), Fail> {
    let alloc = rt.alloc();
    let ended = Err(StreamAnswer::Ended);
    let failed = Err(StreamAnswer::Failed);
    // the call that is to fail, the room, what two sends over the stream answer, the log
    let cases = [
        (1, 2, ended, Ok(()), "failed [33] streamed [63] "),
        (2, 2, Ok(()), ended, "streamed [33] failed [63] "),
        (3, 2, Ok(()), Ok(()), "streamed [33] streamed [63] "),
        (3, 1, Ok(()), failed, "streamed [33] "),
        // no room comes first
        (2, 1, Ok(()), failed, "streamed [33] "),
        (1, 0, failed, failed, ""),
    ];
    for (call, room, first, second, log) in cases {
        let mut link = MemoryLink::new(alloc, room)?;
        link.fail_at(alloc, call)?;
        assert!(rt; link.stream_send(b"!") == first, "{call} of {room}");
        assert!(rt; link.stream_send(b"?") == second, "{call} of {room}");
        assert_eq!(rt;
            in_one_line(alloc, link.log())?.as_str(),
            log,
            "{call} of {room}"
        );
    }
    Ok(())
}

#[test]
fn a_listed_call_fails_and_adds_nothing(rt: HostRuntime) -> Result<(), Fail> {
    let alloc = rt.alloc();
    // the call that is to fail; what open, send and receive answer; the log
    let cases = [
        (
            1,
            Err(Failed),
            Ok(()),
            Ok(Got::Datagram(1)),
            "second [63] given [7] ",
        ),
        (2, Ok(()), Err(Failed), Ok(Got::Datagram(1)), "given [7] "),
        (3, Ok(()), Ok(()), Err(Failed), "second [63] "),
        (
            4,
            Ok(()),
            Ok(()),
            Ok(Got::Datagram(1)),
            "second [63] given [7] ",
        ),
    ];
    for (call, opened, sent, received, log) in cases {
        let mut link = MemoryLink::new(alloc, 2)?;
        link.event(alloc, LinkEvent::Datagram([7].to_vec(alloc)?))?;
        link.fail_at(alloc, call)?;
        assert!(rt; open(&mut link) == opened, "{call}");
        assert!(rt; link.send(Which::Second, b"?") == sent, "{call}");
        assert!(rt; link.receive(&mut [0; 512], 512) == received, "{call}");
        assert_eq!(rt; in_one_line(alloc, link.log())?.as_str(), log, "{call}");
    }
    Ok(())
}

#[test]
fn moves_are_listed_in_order(rt: HostRuntime) -> Result<(), Fail> {
    let alloc = rt.alloc();
    let mut moves = MoveList::new(alloc);
    assert!(rt; moves.is_empty());
    moves.push(alloc, Move::Tick)?;
    moves.push(alloc, Move::Sent(Which::Second, Octets::new(b"ab")))?;
    assert_eq!(rt;
        in_one_line(alloc, &moves)?.as_str(),
        "tick second [97, 98] "
    );
    Ok(())
}
