// The methods of patterns (ECMA-262 5.1, section 15.10.6), and those of texts that take one (section 15.5.4).
ghost use Rattle.std.specs.Prelude.{◌≡◌, ◌≤◌, IfSome, length};
ghost use Rattle.js_evaluation.specs.Patterns as spec;
ghost use Rattle.js_machine.specs.Acts.{Acts};
ghost use Rattle.js_regex.specs.Finds.{MatchWithin, found_of};
ghost use Rattle.utf16_text.specs.declared.limits.TheConstants.{LONGEST_TEXT};

use crate::giving::{give_match, give_matches, give_pieces, give_replaced};
use crate::searching::Search;
use heap_steps::Halt;
use heap_values::Value;
use js_machine::State;
use js_regex::Match;
use pattern_builtins::{pieces_of_matches, replace};
use std::alloc::Global;
use utf16_text::Text;
use whole_number::Whole;

impl Search {
    /// The match at or behind a place as an array, or null (ECMA-262 5.1, section 15.10.6.2).
    pub(crate) fn exec(&self, alloc: Global, state: &mut State, begin: Whole) -> Result<Value, Halt>
        requires short { length self.now.text ≤ LONGEST_TEXT }
        ensures { Acts (spec.exec self.now.pattern self.now.literal self.now.place self.now.text begin) state.old result state.new }
    {
        let found = self.searched(alloc, state, begin)?;
        give_match(alloc, &mut state.heap, &self.text, &found, self.place)
    }

    /// Whether there is a match at or behind a place (ECMA-262 5.1, section 15.10.6.3).
    pub(crate) fn test(&self, alloc: Global, state: &mut State, begin: Whole) -> Result<Value, Halt>
        requires short { length self.now.text ≤ LONGEST_TEXT }
        ensures { Acts (spec.test self.now.pattern self.now.literal self.now.place self.now.text begin) state.old result state.new }
    {
        let found = self.searched(alloc, state, begin)?;
        Ok(Value::Bool(found.is_some()))
    }

    /// All matches, without their groups (ECMA-262 5.1, section 15.5.4.10, step 8).
    fn match_all(&self, alloc: Global, state: &mut State) -> Result<Value, Halt>
        ensures { Acts (spec.match_all self.now.pattern self.now.literal self.now.place self.now.text) state.old result state.new }
    {
        self.set_last_index(alloc, &mut state.heap, 0)?;
        let matches = self.find_all(alloc, state)?;
        let pieces = pieces_of_matches(alloc, &matches)?;
        give_matches(
            alloc,
            &mut state.heap,
            &self.text,
            pieces.as_slice(),
            self.place,
        )
    }

    /// All matches of a global pattern, and the first of another one as `exec` gives it (ECMA-262 5.1, section
    /// 15.5.4.10).
    pub(crate) fn matches(
        &self,
        alloc: Global,
        state: &mut State,
        begin: Whole,
    ) -> Result<Value, Halt>
        requires short { length self.now.text ≤ LONGEST_TEXT }
        ensures { Acts (spec.match self.now.pattern self.now.literal self.now.place self.now.text begin) state.old result state.new }
    {
        if self.literal.is_global() {
            self.match_all(alloc, state)
        } else {
            self.exec(alloc, state, begin)
        }
    }

    /// The place of the first match, or -1 (ECMA-262 5.1, section 15.5.4.12).
    pub(crate) fn search(&self, alloc: Global, state: &mut State) -> Result<Value, Halt>
        requires short { length self.now.text ≤ LONGEST_TEXT }
        ensures { Acts (spec.search self.now.pattern self.now.literal self.now.place self.now.text) state.old result state.new }
    {
        let found = self.find_from(alloc, state, Whole::from(0_u32))?;
        Ok(self.place_found(&found))
    }

    fn place_found(&self, found: &Option<Match>) -> Value
        requires short { length self.now.text ≤ LONGEST_TEXT }
        requires within { IfSome found.now (MatchWithin (length self.now.text)) }
        ensures { result ≡ spec.from_of (found_of found.now) }
    {
        match found {
            None => Value::Number(Whole::from(-1_i32)),
            Some(found) => Value::Number(Whole::from(found.from as u32)),
        }
    }

    /// The text with matches replaced (ECMA-262 5.1, section 15.5.4.11).
    pub(crate) fn replace(&self, alloc: Global, state: &mut State, by: &Text) -> Result<Value, Halt>
        ensures { Acts (spec.replace self.now.pattern self.now.literal self.now.place self.now.text by.now) state.old result state.new }
    {
        let matches = self.find_matches(alloc, state)?;
        self.reset(alloc, &mut state.heap, matches.as_slice())?;
        let made = replace(alloc, &self.text, &matches, by)?;
        give_replaced(&mut state.heap, made, self.place)
    }

    /// The pieces between matches, at most so many (ECMA-262 5.1, section 15.5.4.14).
    pub(crate) fn split(&self, alloc: Global, state: &mut State, limit: u32) -> Result<Value, Halt>
        ensures { Acts (spec.split self.now.pattern self.now.literal self.now.place self.now.text limit) state.old result state.new }
    {
        let pieces = self.find_pieces(alloc, state, limit)?;
        give_pieces(
            alloc,
            &mut state.heap,
            &self.text,
            pieces.as_slice(),
            self.place,
        )
    }
}
