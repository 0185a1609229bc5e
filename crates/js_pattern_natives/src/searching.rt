// Searches, and where the next one begins.
ghost use Rattle.std.specs.Prelude.{◌≡◌, ◌≤◌, [], IfOk, IfSome, None, length, map, pos};
ghost use Rattle.heap_steps.specs.Works.{Works};
ghost use Rattle.js_evaluation.specs.Patterns as spec;
ghost use Rattle.js_machine.specs.Acts.{Acts};
ghost use Rattle.js_pattern.specs.Within.{SpansWithin};
ghost use Rattle.js_pattern_natives.specs.Seen.{refusal, seen_match, seen_matches};
ghost use Rattle.js_pattern_reader.specs.Literal.{is_global};
ghost use Rattle.js_pattern_reader.specs.Reading.{pattern_of};
ghost use Rattle.js_regex.specs.Finds.{MatchWithin, found_of};
ghost use Rattle.pattern_builtins.specs.Pieces.{InOrder, found_in};
ghost use Rattle.utf16_text.specs.declared.limits.TheConstants.{LONGEST_TEXT};

use heap_steps::{Halt, put};
use heap_values::{ObjectId, Value};
use js_evaluation::FaultCode;
use js_machine::State;
use js_pattern_reader::PatternLiteral;
use js_regex::{FindAnswer, Match, find};
use js_tree::Place;
use object_heap::Heap;
use pattern_builtins::{MatchList, PieceList, all_matches, matches_of, split_pieces};
use std::alloc::Global;
use utf16_text::Text;
use whole_number::Whole;

/// A text that is searched for a pattern, and the place of the call that does it.
#[derive(Drop)]
pub(crate) struct Search {
    pub(crate) pattern: ObjectId,
    pub(crate) literal: PatternLiteral,
    pub(crate) text: Text,
    pub(crate) place: Place,
}

impl Search {
    /// The first match at or behind a place of the text.
    fn find_at(&self, alloc: Global, state: &mut State, from: usize) -> Result<Option<Match>, Halt>
        requires { from ≤ length self.now.text }
        ensures finds { Acts (spec.with_tree None (pattern_of self.now.literal.body self.now.literal.flags) (spec.found_from self.now.text (pos from) self.now.place)) state.old (seen_match result) state.new }
        ensures within { IfOk result (λ found. IfSome found (MatchWithin (length self.now.text))) }
    {
        let pattern = self.literal.pattern();
        match find(alloc, pattern, &self.text, from, &mut state.fuel) {
            Ok(found) => Ok(found),
            Err(answer) => Err(stopped(answer, self.place)),
        }
    }

    /// The first match at or behind a place. There is none outside of the text.
    pub(crate) fn find_from(
        &self,
        alloc: Global,
        state: &mut State,
        from: Whole,
    ) -> Result<Option<Match>, Halt>
        ensures finds { Acts (spec.with_tree None (pattern_of self.now.literal.body self.now.literal.flags) (spec.found_from self.now.text from self.now.place)) state.old (seen_match result) state.new }
        ensures within { IfOk result (λ found. IfSome found (MatchWithin (length self.now.text))) }
    {
        let Ok(at) = usize::try_from(from.get()) else {
            return Ok(None);
        };
        if at > self.text.len() {
            return Ok(None);
        }
        self.find_at(alloc, state, at)
    }

    /// All matches.
    pub(crate) fn find_all(&self, alloc: Global, state: &mut State) -> Result<MatchList, Halt>
        ensures finds { Acts (spec.with_tree [] (pattern_of self.now.literal.body self.now.literal.flags) (spec.all_found self.now.text self.now.place)) state.old (seen_matches result) state.new }
        ensures within { IfOk result (InOrder (length self.now.text) 0) }
    {
        let pattern = self.literal.pattern();
        match all_matches(alloc, pattern, &self.text, &mut state.fuel) {
            Ok(found) => Ok(found),
            Err(answer) => Err(stopped(answer, self.place)),
        }
    }

    /// All matches of a global pattern, and the first of another one.
    pub(crate) fn find_matches(&self, alloc: Global, state: &mut State) -> Result<MatchList, Halt>
        ensures finds { Acts (spec.with_tree [] (pattern_of self.now.literal.body self.now.literal.flags) (spec.matches_found self.now.text self.now.place)) state.old (seen_matches result) state.new }
        ensures within { IfOk result (InOrder (length self.now.text) 0) }
    {
        let pattern = self.literal.pattern();
        match matches_of(alloc, pattern, &self.text, &mut state.fuel) {
            Ok(found) => Ok(found),
            Err(answer) => Err(stopped(answer, self.place)),
        }
    }

    /// The pieces between matches, at most so many.
    pub(crate) fn find_pieces(
        &self,
        alloc: Global,
        state: &mut State,
        limit: u32,
    ) -> Result<PieceList, Halt>
        ensures finds { Acts (spec.with_tree [] (pattern_of self.now.literal.body self.now.literal.flags) (spec.pieces_found self.now.text limit self.now.place)) state.old result state.new }
        ensures within { IfOk result (SpansWithin (length self.now.text)) }
    {
        let pattern = self.literal.pattern();
        match split_pieces(alloc, pattern, &self.text, limit as usize, &mut state.fuel) {
            Ok(pieces) => Ok(pieces),
            Err(answer) => Err(stopped(answer, self.place)),
        }
    }

    /// Sets `lastIndex`.
    pub(crate) fn set_last_index(&self, alloc: Global, heap: &mut Heap, to: u32) -> Result<(), Halt>
        ensures { Works (spec.set_last_index self.now.pattern to self.now.place) heap.old result heap.new }
    {
        let pattern = Value::Object(self.pattern);
        let name = Text::from_latin_1(alloc, b"lastIndex")?;
        let value = Value::Number(Whole::from(to));
        put(alloc, heap, &pattern, &name, value, self.place)
    }

    /// Sets `lastIndex` behind a search: to 0 where nothing was found, and to the end of the match of a global pattern.
    fn moved(&self, alloc: Global, heap: &mut Heap, found: &Option<Match>) -> Result<(), Halt>
        requires short { length self.now.text ≤ LONGEST_TEXT }
        requires within { IfSome found.now (MatchWithin (length self.now.text)) }
        ensures { Works (spec.moved self.now.pattern (is_global self.now.literal) (found_of found.now) self.now.place) heap.old result heap.new }
    {
        match found {
            None => self.set_last_index(alloc, heap, 0),
            Some(found) => self.moved_behind(alloc, heap, found),
        }
    }

    fn moved_behind(&self, alloc: Global, heap: &mut Heap, found: &Match) -> Result<(), Halt>
        requires short { length self.now.text ≤ LONGEST_TEXT }
        requires within { MatchWithin (length self.now.text) found.now }
        ensures { Works (spec.moved self.now.pattern (is_global self.now.literal) (Some (found_in found.now)) self.now.place) heap.old result heap.new }
    {
        if self.literal.is_global() {
            self.set_last_index(alloc, heap, found.to as u32)
        } else {
            Ok(())
        }
    }

    /// Sets `lastIndex` to 0 behind all searches of a global pattern, and behind one that found nothing.
    pub(crate) fn reset(&self, alloc: Global, heap: &mut Heap, found: &[Match]) -> Result<(), Halt>
        ensures { Works (spec.reset self.now.pattern (is_global self.now.literal) (map found_in found.now) self.now.place) heap.old result heap.new }
    {
        if self.literal.is_global() || found.is_empty() {
            self.set_last_index(alloc, heap, 0)
        } else {
            Ok(())
        }
    }

    /// One search as `exec` does it (ECMA-262 5.1, section 15.10.6.2). That for a global pattern begins where it is said.
    pub(crate) fn searched(
        &self,
        alloc: Global,
        state: &mut State,
        begin: Whole,
    ) -> Result<Option<Match>, Halt>
        requires short { length self.now.text ≤ LONGEST_TEXT }
        ensures finds { Acts (spec.searched self.now.pattern self.now.literal self.now.place self.now.text begin) state.old (seen_match result) state.new }
        ensures within { IfOk result (λ found. IfSome found (MatchWithin (length self.now.text))) }
    {
        let from = place_of(self.literal.is_global(), begin);
        let found = self.find_from(alloc, state, from)?;
        self.moved(alloc, &mut state.heap, &found)?;
        Ok(found)
    }
}

/// Where a search begins: one for a pattern that isn't global from the front.
fn place_of(global: bool, begin: Whole) -> Whole
    ensures { result ≡ spec.place_of global begin }
{
    if global { begin } else { Whole::from(0_u32) }
}

/// What a search without an answer comes to.
fn stopped(answer: FindAnswer, place: Place) -> Halt
    ensures { result ≡ refusal answer place }
{
    match answer {
        FindAnswer::Spent => Halt::Fault {
            code: FaultCode::FuelSpent,
            place,
        },
        FindAnswer::Memory => Halt::Memory,
    }
}
