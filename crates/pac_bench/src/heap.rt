// Work on a heap. Each piece gives a checksum.
use anyhow::{Context, Result, bail};
use heap_values::{Found, Kind, ObjectId, Value};
use object_heap::Heap;
use std::alloc::Global;
use utf16_text::{Memory, Text};
use whole_number::Whole;

/// The words are a kind of work, a size and a count. It writes the checksum.
pub fn run(rt: &HostRuntime, words: &[String]) -> Result<()> {
    let [work, size, count] = words else {
        bail!("usage: pac_bench heap gets|slots|chosen|random|deleted|objects SIZE COUNT");
    };
    let size = size.parse::<u32>().context("a size")?;
    let count = count.parse::<u32>().context("a count")?;
    let sum = do_work(rt.alloc(), work.as_str(), size, count)?;
    println!(rt; "{sum}")?;
    Ok(())
}

fn do_work(alloc: Global, work: &str, size: u32, count: u32) -> Result<u64> {
    match work {
        "gets" => gets(alloc, size, count),
        "slots" => slots(alloc, size, count),
        "chosen" => additions(alloc, count, Naming::Chosen),
        "random" => additions(alloc, count, Naming::Random),
        "deleted" => deletions(alloc, count),
        "objects" => objects(alloc, size, count),
        _ => bail!("gets, slots, chosen, random, deleted or objects"),
    }
}

// Twelve equal letters and eight digits: what a script would choose to slow an ordered index down.
fn chosen_name(alloc: Global, number: u32) -> Result<Text, Memory> {
    let mut units = [97; 20];
    let mut rest = number;
    for at in 0..8 {
        units[19 - at] = 48 + (rest % 10) as u16;
        rest /= 10;
    }
    Text::from_units(alloc, &units)
}

// A letter and seven digits. A run may make 16,777,216 units of text: eight for each of 2,000,000 names.
fn short_name(alloc: Global, number: u32) -> Result<Text, Memory> {
    let mut units = [97; 8];
    let mut rest = number;
    for at in 0..7 {
        units[7 - at] = 48 + (rest % 10) as u16;
        rest /= 10;
    }
    Text::from_units(alloc, &units)
}

// Twenty letters drawn from the number.
fn random_name(alloc: Global, number: u32) -> Result<Text, Memory> {
    let mut units = [97; 20];
    let mut state = u64::from(number).wrapping_mul(0x9E37_79B9_7F4A_7C15);
    for at in 0..20 {
        state = state
            .wrapping_mul(6364136223846793005)
            .wrapping_add(1442695040888963407);
        units[at] = 97 + (state / 8589934592 % 26) as u16;
    }
    Text::from_units(alloc, &units)
}

// Which names new properties have.
#[derive(Clone, Copy)]
enum Naming {
    Chosen,
    Random,
}

impl Naming {
    fn name(self, alloc: Global, number: u32) -> Result<Text, Memory> {
        match self {
            Naming::Chosen => chosen_name(alloc, number),
            Naming::Random => random_name(alloc, number),
        }
    }
}

fn number_in(value: &Value) -> u64 {
    match value {
        Value::Number(number) => number.get().unsigned_abs(),
        _ => 0,
    }
}

fn number_found(found: &Found) -> u64 {
    match found {
        Found::Value(value) => number_in(value),
        _ => 0,
    }
}

fn put(alloc: Global, heap: &mut Heap, object: ObjectId, name: &Text, value: u32) -> Result<()> {
    heap.put(alloc, object, name, Value::Number(Whole::from(value)))?;
    Ok(())
}

fn fill(alloc: Global, heap: &mut Heap, object: ObjectId, size: u32) -> Result<Vec<Text>> {
    let mut names = Vec::new(alloc);
    for number in 0..size {
        let name = random_name(alloc, number)?;
        put(alloc, heap, object, &name, number)?;
        names.push(name)?;
    }
    Ok(names)
}

// Gets by name, over and over, on an object of so many properties.
fn gets(alloc: Global, size: u32, count: u32) -> Result<u64> {
    let mut heap = Heap::new(alloc)?;
    let object = heap.make(alloc, Kind::Plain, None)?;
    let names = fill(alloc, &mut heap, object, size)?;
    let mut sum: u64 = 0;
    let mut at = 0;
    for _get in 0..count {
        if at >= names.len() {
            at = 0;
        }
        if at < names.len() {
            sum = sum.wrapping_add(number_found(&heap.get(alloc, object, &names[at])?));
            at += 1;
        }
    }
    Ok(sum)
}

// Reads and writes of slots, in turn, on a scope of so many.
fn slots(alloc: Global, size: u32, count: u32) -> Result<u64> {
    let mut heap = Heap::new(alloc)?;
    let scope = heap.make_scope(alloc, size, None)?;
    let mut sum: u64 = 0;
    for turn in 0..count {
        let slot = turn % size.max(1);
        heap.write_slot(alloc, scope, slot, Value::Number(Whole::from(turn)))?;
        sum = sum.wrapping_add(number_in(&heap.read_slot(alloc, scope, slot)?));
    }
    Ok(sum)
}

// New properties of one object, the name of each made anew.
fn additions(alloc: Global, count: u32, naming: Naming) -> Result<u64> {
    let mut heap = Heap::new(alloc)?;
    let object = heap.make(alloc, Kind::Plain, None)?;
    for number in 0..count {
        let name = naming.name(alloc, number)?;
        put(alloc, &mut heap, object, &name, number)?;
    }
    Ok(heap.cells())
}

// New properties of one object, each deleted again in the order of creation.
fn deletions(alloc: Global, count: u32) -> Result<u64> {
    let mut heap = Heap::new(alloc)?;
    let object = heap.make(alloc, Kind::Plain, None)?;
    let names = fill(alloc, &mut heap, object, count)?;
    let mut sum: u64 = 0;
    for name in names.as_slice() {
        if heap.delete(alloc, object, name)? {
            sum = sum.wrapping_add(1);
        }
    }
    Ok(sum)
}

// So many objects of so many properties each, the name of each made anew.
fn objects(alloc: Global, count: u32, size: u32) -> Result<u64> {
    let mut heap = Heap::new(alloc)?;
    for _object in 0..count {
        let object = heap.make(alloc, Kind::Plain, None)?;
        for number in 0..size {
            let name = short_name(alloc, number)?;
            put(alloc, &mut heap, object, &name, number)?;
        }
    }
    Ok(heap.cells())
}
