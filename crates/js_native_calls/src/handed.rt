// The values that are handed to a native are converted, and then it works.
ghost use Rattle.js_frames.specs.RestOf.{with_primitive};
ghost use Rattle.js_frames.specs.declared.wanted.Wanted.TheVariants as wanted;
ghost use Rattle.js_machine.specs.Moves.{Leads, Moves, at};
ghost use Rattle.js_native_calls.specs.Calls as spec;

use crate::converting::convert;
use crate::doing::native_done;
use crate::readying::{Readied, ready};
use heap_values::Value;
use js_evaluation::Native;
use js_frames::Wanted;
use js_machine::{Machine, Step};
use js_native_table::conversion_at;
use js_natives::{methods_for, settled};
use js_tree::Place;
use utf16_text::List;

/// So many more of the values that are handed to a native are converted, from left to right, behind those that are
/// done; then it works. left: how many they are.
pub fn values_converted<'p>(
    machine: &mut Machine<'p>,
    native: Native,
    left: usize,
    done: List<Value>,
    handed: List<Value>,
    place: Place,
) -> Step<'p>
    ensures { Moves (at machine.old spec.converted_from native left done handed place) machine.old result machine.new }
{
    let mut left = left;
    let mut done = done;
    while left > 0 {
        left -= 1;
        let at = done.len();
        let heap = &mut machine.state.heap;
        let next = ready(machine.alloc, heap, native, at, handed.as_slice(), place)?;
        match next {
            Readied::Value(value) => done.push(machine.alloc, value)?,
            Readied::Asked(object) => {
                let methods = methods_for(conversion_at(native, at));
                let wanted = Wanted::Handed {
                    native,
                    left,
                    done,
                    handed,
                    place,
                };
                return convert(machine, methods, object, place, wanted);
            }
        }
    }
    native_done(machine, native, done, handed, place)
}

/// A value that is handed to a native has become this primitive value; those behind it follow.
pub fn value_converted<'p>(
    machine: &mut Machine<'p>,
    native: Native,
    left: usize,
    done: List<Value>,
    handed: List<Value>,
    place: Place,
    value: Value,
) -> Step<'p>
    ensures { Leads (at machine.old with_primitive (wanted.Handed native left done handed place) value) machine.old result machine.new }
{
    let conversion = conversion_at(native, done.len());
    let value = settled(machine.alloc, conversion, value, place)?;
    let mut done = done;
    done.push(machine.alloc, value)?;
    values_converted(machine, native, left, done, handed, place)
}
