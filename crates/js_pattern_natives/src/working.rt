// The work of a native with a pattern, on values that are converted.
ghost use Rattle.std.specs.Prelude.{◌≡◌, ◌≤◌, length, option_map};
ghost use Rattle.heap_steps.specs.Works.{Works};
ghost use Rattle.js_evaluation.specs.Handed.{argument as argument_in};
ghost use Rattle.js_evaluation.specs.NativeWork.{literal_in as literal_of};
ghost use Rattle.js_evaluation.specs.Patterns as spec;
ghost use Rattle.js_machine.specs.Acts.{Acts};
ghost use Rattle.js_pattern_natives.specs.Working as parts;
ghost use Rattle.utf16_text.specs.declared.limits.TheConstants.{LONGEST_TEXT};

use crate::searching::Search;
use heap_steps::{Halt, test_text};
use heap_values::{ObjectId, Value};
use js_convert::to_text;
use js_evaluation::PatternNative;
use js_machine::State;
use js_natives::{argument, literal_in, text_work};
use js_pattern_reader::PatternLiteral;
use js_tree::Place;
use object_heap::Heap;
use std::alloc::Global;
use text_builtins::TextMethod;
use whole_number::Whole;

/// The pattern whose `lastIndex` is read before a native's search. None where none is.
pub fn read_by(heap: &Heap, native: PatternNative, values: &[Value]) -> Option<ObjectId>
    ensures { result ≡ spec.read_by native heap.now values.now }
{
    match native {
        PatternNative::Exec => object_at(values, 0),
        PatternNative::Test => object_at(values, 0),
        PatternNative::Match => single_at(heap, values, 1),
        PatternNative::Search => None,
        PatternNative::Replace => single_at(heap, values, 1),
        PatternNative::Split => None,
    }
}

/// The object in a place among values, counted from 0.
fn object_at(values: &[Value], at: usize) -> Option<ObjectId>
    ensures { result ≡ spec.read_of_receiver (argument_in at values.now) }
{
    match values.get(at) {
        None => None,
        Some(value) => object_of(value),
    }
}

fn object_of(value: &Value) -> Option<ObjectId>
    ensures { result ≡ spec.read_of_receiver value.now }
{
    match value {
        Value::Object(object) => Some(*object),
        _ => None,
    }
}

/// The pattern in a place among values, counted from 0, if it isn't global.
fn single_at(heap: &Heap, values: &[Value], at: usize) -> Option<ObjectId>
    ensures { result ≡ spec.read_of_single (argument_in at values.now) (literal_of heap.now (argument_in at values.now)) }
{
    match values.get(at) {
        None => None,
        Some(value) => single_of(value, literal_in(heap, value)),
    }
}

fn single_of(value: &Value, literal: Option<&PatternLiteral>) -> Option<ObjectId>
    ensures { result ≡ spec.read_of_single value.now (option_map (λ l. l.now) literal.entry) }
{
    match (value, literal) {
        (Value::Object(object), Some(literal)) => single(*object, literal),
        _ => None,
    }
}

fn single(object: ObjectId, literal: &PatternLiteral) -> Option<ObjectId>
    ensures { result ≡ spec.read_of_single (Value.Object object) (Some literal.now) }
{
    if literal.is_global() {
        None
    } else {
        Some(object)
    }
}

/// What a native does with the values that it takes, which are converted: the receiver of a method, and the arguments;
/// and where its search begins. Anything else than a pattern was refused before, but by `replace` and `split`.
pub fn pattern_work(
    alloc: Global,
    state: &mut State,
    native: PatternNative,
    values: &[Value],
    begin: &Value,
    place: Place,
) -> Result<Value, Halt>
    ensures { Acts (spec.pattern_work native values.now begin.now place) state.old result state.new }
{
    let pattern = argument(alloc, values, pattern_place(native))?;
    let text = argument(alloc, values, text_place(native))?;
    let text = to_text(alloc, &text)?;
    match pattern_in(&pattern, literal_in(&state.heap, &pattern)) {
        None => without(alloc, &mut state.heap, native, values, place),
        Some((pattern, literal)) => {
            let literal = literal.copy()?;
            test_text(&text, place)?;
            let search = Search {
                pattern,
                literal,
                text,
                place,
            };
            search.with_both(alloc, state, native, values, begin)
        }
    }
}

/// The place of the pattern among the values: a method of patterns has it as its receiver.
fn pattern_place(native: PatternNative) -> usize
    ensures { result ≡ parts.pattern_place native }
{
    match native {
        PatternNative::Exec => 0,
        PatternNative::Test => 0,
        PatternNative::Match => 1,
        PatternNative::Search => 1,
        PatternNative::Replace => 1,
        PatternNative::Split => 1,
    }
}

fn text_place(native: PatternNative) -> usize
    ensures { result ≡ parts.text_place native }
{
    match native {
        PatternNative::Exec => 1,
        PatternNative::Test => 1,
        PatternNative::Match => 0,
        PatternNative::Search => 0,
        PatternNative::Replace => 0,
        PatternNative::Split => 0,
    }
}

/// The object and the literal of a value that is a pattern.
fn pattern_in<'a>(
    value: &Value,
    literal: Option<&'a PatternLiteral>,
) -> Option<(ObjectId, &'a PatternLiteral)>
    ensures { option_map (λ p. (p.0, p.1.now)) result ≡ parts.pattern_in value.now (option_map (λ l. l.now) literal.entry) }
{
    match (value, literal) {
        (Value::Object(object), Some(literal)) => Some((*object, literal)),
        _ => None,
    }
}

impl Search {
    /// What a native does with its pattern and its text.
    fn with_both(
        &self,
        alloc: Global,
        state: &mut State,
        native: PatternNative,
        values: &[Value],
        begin: &Value,
    ) -> Result<Value, Halt>
        requires short { length self.now.text ≤ LONGEST_TEXT }
        ensures { Acts (parts.with_both values.now begin.now self.now.place native self.now.pattern self.now.literal self.now.text) state.old result state.new }
    {
        let begin = begin_in(begin);
        let last = argument(alloc, values, 2)?;
        match native {
            PatternNative::Exec => self.exec(alloc, state, begin),
            PatternNative::Test => self.test(alloc, state, begin),
            PatternNative::Match => self.matches(alloc, state, begin),
            PatternNative::Search => self.search(alloc, state),
            PatternNative::Replace => {
                let by = to_text(alloc, &last)?;
                self.replace(alloc, state, &by)
            }
            PatternNative::Split => self.split(alloc, state, limit_in(&last)),
        }
    }
}

/// What a native does without a pattern.
fn without(
    alloc: Global,
    heap: &mut Heap,
    native: PatternNative,
    values: &[Value],
    place: Place,
) -> Result<Value, Halt>
    ensures { Works (parts.without values.now place native) heap.old result heap.new }
{
    match native {
        PatternNative::Exec => Ok(Value::Undefined),
        PatternNative::Test => Ok(Value::Undefined),
        PatternNative::Match => Ok(Value::Undefined),
        PatternNative::Search => Ok(Value::Undefined),
        PatternNative::Replace => text_work(alloc, heap, TextMethod::Replace, values, place),
        PatternNative::Split => text_work(alloc, heap, TextMethod::Split, values, place),
    }
}

/// Where a search begins, as it was read.
fn begin_in(value: &Value) -> Whole
    ensures { result ≡ spec.begin_in value.now }
{
    match value {
        Value::Number(begin) => *begin,
        _ => Whole::from(0_u32),
    }
}

/// How many pieces there may be.
fn limit_in(value: &Value) -> u32
    ensures { result ≡ spec.limit_in value.now }
{
    match value {
        Value::Number(limit) => limit.to_uint32(),
        _ => u32::MAX,
    }
}
