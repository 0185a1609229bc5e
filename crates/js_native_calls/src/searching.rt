// Methods that search a text for a pattern (ECMA-262 5.1, sections 15.10.6 and 15.5.4).
ghost use Rattle.js_evaluation.specs.Patterns.{pattern_work};
ghost use Rattle.js_frames.specs.RestOf.{with_primitive};
ghost use Rattle.js_frames.specs.declared.wanted.Wanted.TheVariants as wanted;
ghost use Rattle.js_machine.specs.Moves.{Leads, Moves, at};
ghost use Rattle.js_native_calls.specs.Calls as spec;

use crate::converting::convert;
use heap_steps::get;
use heap_values::{ObjectId, Value};
use js_evaluation::{Conversion, Native, PatternNative};
use js_frames::{Methods, Wanted};
use js_machine::{Machine, Now, Step};
use js_natives::{charge_walk_of, settled};
use js_pattern_natives::{pattern_work, read_by};
use js_tree::Place;
use utf16_text::{List, Text};
use whole_number::Whole;

/// The walk of the method is charged, where it begins is read, and then it works. handed: how many values it was given.
pub fn pattern_done<'p>(
    machine: &mut Machine<'p>,
    native: PatternNative,
    values: List<Value>,
    handed: usize,
    place: Place,
) -> Step<'p>
    ensures { Moves (at machine.old spec.pattern_done native values handed place) machine.old result machine.new }
{
    let mut fuel = machine.state.fuel;
    charge_walk_of(
        machine.alloc,
        &mut fuel,
        Native::Pattern(native),
        values.as_slice(),
        handed,
        place,
    )?;
    machine.state.fuel = fuel;
    searched(machine, native, values, place)
}

/// Where the search begins is read, where that counts, and then the method works.
fn searched<'p>(
    machine: &mut Machine<'p>,
    native: PatternNative,
    values: List<Value>,
    place: Place,
) -> Step<'p>
    ensures { Moves (at machine.old spec.searched native values place) machine.old result machine.new }
{
    match read_by(&machine.state.heap, native, values.as_slice()) {
        None => {
            let front = Value::Number(Whole::from(0_u32));
            pattern_worked(machine, native, values, front, place)
        }
        Some(pattern) => begun(machine, native, values, pattern, place),
    }
}

/// Where the search for a pattern begins is read, and then the method works.
fn begun<'p>(
    machine: &mut Machine<'p>,
    native: PatternNative,
    values: List<Value>,
    pattern: ObjectId,
    place: Place,
) -> Step<'p>
    ensures { Moves (at machine.old spec.begun native values pattern place) machine.old result machine.new }
{
    let key = Text::from_latin_1(machine.alloc, b"lastIndex")?;
    let heap = &mut machine.state.heap;
    let begin = get(machine.alloc, heap, &Value::Object(pattern), &key, place)?;
    match begin {
        Value::Object(object) => {
            let wanted = Wanted::Begin {
                native,
                values,
                place,
            };
            convert(machine, Methods::ForNumber, object, place, wanted)
        }
        begin => begin_converted(machine, native, values, place, begin),
    }
}

/// Where a search begins has become this primitive value.
pub fn begin_converted<'p>(
    machine: &mut Machine<'p>,
    native: PatternNative,
    values: List<Value>,
    place: Place,
    begin: Value,
) -> Step<'p>
    ensures { Leads (at machine.old with_primitive (wanted.Begin native values place) begin) machine.old result machine.new }
{
    let begin = settled(machine.alloc, Conversion::Position, begin, place)?;
    pattern_worked(machine, native, values, begin, place)
}

fn pattern_worked<'p>(
    machine: &mut Machine<'p>,
    native: PatternNative,
    values: List<Value>,
    begin: Value,
    place: Place,
) -> Step<'p>
    ensures { Moves (pattern_work native values begin place) machine.old result machine.new }
{
    let state = &mut machine.state;
    let value = pattern_work(
        machine.alloc,
        state,
        native,
        values.as_slice(),
        &begin,
        place,
    )?;
    Ok(Now::Back(Ok(value)))
}
