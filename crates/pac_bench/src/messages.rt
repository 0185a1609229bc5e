// Replies, read so often. The number in the datagram changes from one reading to the next.
ghost use Rattle.std.specs.Prelude.{◌<◌};

use anyhow::{Context, Result, bail};
use dns_message::{read_reply, write_reply};
use pac_names::{Answer, LookupName};

/// The words are a kind of reply and a count. It writes the sum of the addresses, which depends on each reading.
pub fn run(rt: &HostRuntime, words: &[String]) -> Result<()> {
    let [kind, count] = words else {
        bail!("usage: pac_bench messages plain|chain COUNT");
    };
    let count = count.parse::<u32>().context("a count")?;
    let sum = match kind.as_str() {
        "plain" => read_plain(count),
        "chain" => read_chain(count),
        _ => bail!("plain or chain"),
    };
    println!(rt; "{sum}")?;
    Ok(())
}

// Reads the reply with one address of example.com, so often.
fn read_plain(count: u32) -> u64 {
    let Some(name) = LookupName::from_bytes(b"example.com") else {
        return 0;
    };
    let mut buffer = [0; 512];
    let length = write_reply(&mut buffer, 0, &name, Answer::Address(0x5db8d822));
    read_often(&mut buffer[..length], &name, count)
}

// Reads a chain of 16 aliases from the name `a`, each record before the one that leads to it, so often.
fn read_chain(count: u32) -> u64 {
    let Some(name) = LookupName::from_bytes(b"a") else {
        return 0;
    };
    let mut datagram = [0; 292];
    datagram[..12].copy_from_slice(&[0, 0, 0x81, 0x80, 0, 1, 0, 17, 0, 0, 0, 0]);
    datagram[12..19].copy_from_slice(&[1, b'a', 0, 0, 1, 0, 1]);
    datagram[19..36].copy_from_slice(&[1, b'q', 0, 0, 1, 0, 1, 0, 0, 0, 60, 0, 4, 10, 0, 0, 9]);
    for step in 0..16 {
        write_alias(&mut datagram, step);
    }
    read_often(&mut datagram, &name, count)
}

// The alias that the chain's step so far from its end goes by.
fn write_alias(datagram: &mut [u8; 292], step: u8)
    requires { step < 16 }
{
    let at = 36 + 16 * step as usize;
    let target = b'q' - step;
    let record = [
        1,
        target - 1,
        0,
        0,
        5,
        0,
        1,
        0,
        0,
        0,
        60,
        0,
        3,
        1,
        target,
        0,
    ];
    datagram[at..at + 16].copy_from_slice(&record);
}

// The sum of the addresses that readings under the numbers 0, 1 and so on give.
fn read_often(datagram: &mut [u8], name: &LookupName, count: u32) -> u64 {
    let mut sum: u64 = 0;
    for turn in 0..count {
        let id = (turn % 256) as u16;
        if let [_, low, ..] = datagram {
            *low = id as u8;
        }
        if let Some(Answer::Address(address)) = read_reply(datagram, id, name) {
            sum = sum.wrapping_add(u64::from(address));
        }
    }
    sum
}
