// What a host answers and keeps at its limits (32 names, 256 alerts, 1,024 units of one), and what a run asks of it
// that begins again.
use answer_table::AnswerTable;
use js_host::{Host, Looked};
use pac_names::{Answer, LookupName};
use std::alloc::Global;
use std::process::Abort;
use std::test::Fail;
use tracing_host::{MapHost, TracingHost};
use utf16_text::{Memory, Text};

const ADDRESS: Answer = Answer::Address(0x0a000001);

/// A host that writes down its calls, and hands them on.
#[derive(Drop)]
struct Spy<H> {
    host: H,
    calls: Vec<u8>,
}

impl<H: Host> Host for Spy<H> {
    ghost seen = { λ s. H.seen s.host };

    fn lookup(&mut self, alloc: Global, name: &LookupName) -> Looked {
        match write_lookup(&mut self.calls, name) {
            Ok(()) => self.host.lookup(alloc, name),
            Err(_) => Looked::Memory,
        }
    }

    fn alert(&mut self, alloc: Global, text: &Text) -> Result<(), Memory> {
        write_alert(alloc, &mut self.calls, text)?;
        self.host.alert(alloc, text)
    }
}

fn write_lookup(calls: &mut Vec<u8>, name: &LookupName) -> Result<(), Memory> {
    calls.extend_from_slice(b"lookup ")?;
    calls.extend_from_slice(name.bytes())?;
    calls.push(b';')?;
    Ok(())
}

fn write_alert(alloc: Global, calls: &mut Vec<u8>, text: &Text) -> Result<(), Memory> {
    calls.extend_from_slice(b"alert ")?;
    text.escape_into(alloc, calls, false)?;
    calls.push(b';')?;
    Ok(())
}

fn name(text: &str) -> Result<LookupName, Fail> {
    Ok(LookupName::from_bytes(text.as_bytes()).ok_or("a name")?)
}

/// A name for each number.
fn numbered(alloc: Global, number: u32) -> Result<LookupName, Fail> {
    name(format!(in alloc; "n{number}.example")?.as_str())
}

/// A table with the same answer for each of these names.
fn table(alloc: Global, names: &[&str]) -> Result<AnswerTable, Fail> {
    let mut table = AnswerTable::new(alloc);
    for text in names {
        let name = name(text)?;
        if table.get(&name).is_none() {
            table.insert(alloc, name, ADDRESS)?;
        }
    }
    Ok(table)
}

/// A run that tells `a`, asks for x.example, tells `b` and asks for y.example. It ends at a name without an answer.
fn run<H: Host>(alloc: Global, host: &mut H) -> Result<Looked, Fail> {
    host.alert(alloc, &Text::from_str(alloc, "a")?)?;
    let first = host.lookup(alloc, &name("x.example")?);
    if !matches!(first, Looked::Known(_)) {
        return Ok(first);
    }
    host.alert(alloc, &Text::from_str(alloc, "b")?)?;
    Ok(host.lookup(alloc, &name("y.example")?))
}

/// What a run comes to that begins with these names known, and its calls.
fn traced(alloc: Global, known: &[&str]) -> Result<(Looked, Vec<u8>), Fail> {
    let table = table(alloc, known)?;
    let mut spy = Spy {
        host: TracingHost::new(alloc, &table),
        calls: Vec::new(alloc),
    };
    let looked = run(alloc, &mut spy)?;
    let Spy { host: _, calls } = spy;
    Ok((looked, calls))
}

const ONE_CALL: &[u8] = b"alert a;lookup x.example;";

const ALL_CALLS: &[u8] = b"alert a;lookup x.example;alert b;lookup y.example;";

// Each run begins with its first call, whatever the runs before it have learnt.
#[test]
fn each_run_begins_anew(rt: HostRuntime) -> Result<(), Fail> {
    let alloc = rt.alloc();
    let (looked, calls) = traced(alloc, &[])?;
    assert_eq!(rt; looked, Looked::Missing);
    assert!(rt; calls.as_slice() == ONE_CALL);
    let (looked, calls) = traced(alloc, &["x.example"])?;
    assert_eq!(rt; looked, Looked::Missing);
    assert!(rt; calls.as_slice() == ALL_CALLS);
    let (looked, calls) = traced(alloc, &["x.example", "y.example"])?;
    assert_eq!(rt; looked, Looked::Known(ADDRESS));
    assert!(rt; calls.as_slice() == ALL_CALLS);
    Ok(())
}

/// Asks for 33 names, of which the host knows the first alone, and for the first once more.
fn ask_33(
    rt: &impl Abort,
    alloc: Global,
    host: &mut impl Host,
    unknown: Looked,
) -> Result<(), Fail> {
    for number in 0..33u32 {
        let looked = host.lookup(alloc, &numbered(alloc, number)?);
        let want = match number {
            0 => Looked::Known(ADDRESS),
            32 => Looked::TooMany,
            _ => unknown,
        };
        assert_eq!(rt; looked, want, "name {number}");
    }
    let again = host.lookup(alloc, &numbered(alloc, 0)?);
    assert_eq!(rt; again, Looked::Known(ADDRESS));
    Ok(())
}

// 32 names are written down, in order and once each; the 33rd is refused, and one of them is answered again.
#[test]
fn names_at_their_limit(rt: HostRuntime) -> Result<(), Fail> {
    let alloc = rt.alloc();
    let table = table(alloc, &["n0.example"])?;
    let mut host = TracingHost::new(alloc, &table);
    ask_33(&rt, alloc, &mut host, Looked::Missing)?;
    assert_eq!(rt; host.asked().len(), 32);
    assert!(rt; host.asked().as_slice()[31] == numbered(alloc, 31)?);
    let mut host = MapHost::new(alloc, &table);
    ask_33(&rt, alloc, &mut host, Looked::Known(Answer::NoAddress))?;
    assert_eq!(rt; host.asked().len(), 32);
    assert!(rt; host.asked().as_slice()[0] == numbered(alloc, 0)?);
    Ok(())
}

/// Tells a host a long text, and then its number 256 times.
fn tell_257(alloc: Global, host: &mut impl Host) -> Result<(), Fail> {
    let units = vec![in alloc; 97u16; 1_025]?;
    host.alert(alloc, &Text::from_units(alloc, units.as_slice())?)?;
    for number in 1..257u32 {
        let text = format!(in alloc; "{number}")?;
        host.alert(alloc, &Text::from_str(alloc, text.as_str())?)?;
    }
    Ok(())
}

// The first 256 alerts are kept, and of a text of 1,025 units the first 1,024.
#[test]
fn alerts_at_their_limit(rt: HostRuntime) -> Result<(), Fail> {
    let alloc = rt.alloc();
    let table = AnswerTable::new(alloc);
    let last = Text::from_str(alloc, "255")?;
    let mut host = TracingHost::new(alloc, &table);
    tell_257(alloc, &mut host)?;
    assert_eq!(rt; host.alerts().len(), 256);
    assert_eq!(rt; host.alerts().at(0).len(), 1_024);
    assert!(rt; host.alerts().at(255).equals(&last));
    let mut host = MapHost::new(alloc, &table);
    tell_257(alloc, &mut host)?;
    assert_eq!(rt; host.alerts().len(), 256);
    assert_eq!(rt; host.alerts().at(0).len(), 1_024);
    assert!(rt; host.alerts().at(255).equals(&last));
    Ok(())
}
