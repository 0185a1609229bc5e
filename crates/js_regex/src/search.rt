// The search for a pattern.
ghost use Rattle.std.specs.Prelude.{◌≡◌, ◌≤◌, IfOk, IfSome, length};
ghost use Rattle.js_regex.specs.Finds.{Finds, MatchWithin};

use crate::FindAnswer;
use crate::matcher::Matcher;
use crate::state::State;
use js_pattern::{GroupList, Pattern};
use std::alloc::Global;
use utf16_text::Text;

/// A match: from the first place up to and without the second, in units from 0, and what each group has matched, by its
/// number from 0.
#[derive(Drop)]
pub struct Match {
    pub from: usize,
    pub to: usize,
    pub groups: GroupList,
}

/// The first match of a pattern at or after a place of a text, or None exactly where there is none (ECMA-262 5.1,
/// section 15.10.6.2). What the search costs is taken from the fuel, a unit for each part and each mark that is taken
/// up. Spent comes exactly where it costs more than there is fuel; then, and where memory is refused, no more fuel is
/// left than before.
pub fn find(
    alloc: Global,
    pattern: &Pattern,
    text: &Text,
    from: usize,
    fuel: &mut u64,
) -> Result<Option<Match>, FindAnswer>
    requires { from ≤ length text.now }
    ensures finds { Finds pattern.now text.now from fuel.old result fuel.new }
    ensures within { IfOk result (λ found. IfSome found (MatchWithin (length text.now))) }
    ensures groups { IfOk result (λ found. IfSome found (λ m. length m.groups ≡ pattern.now.groups)) }
{
    search(alloc, pattern, text, from, fuel)
}

fn search(
    alloc: Global,
    pattern: &Pattern,
    text: &Text,
    from: usize,
    fuel: &mut u64,
) -> Result<Option<Match>, FindAnswer>
    requires { from ≤ length text.now }
    ensures { Finds pattern.now text.now from fuel.old result fuel.new }
{
    let matcher = Matcher {
        text: text.units(),
        flags: pattern.flags(),
    };
    let root = pattern.root();
    let count = usize::from(pattern.groups());
    let mut state = State::new(alloc);
    let mut place = from;
    while place <= text.len() {
        match matcher.run_from(&mut state, root, count, place, fuel) {
            Err(answer) => return Err(answer),
            Ok(true) => return Ok(Some(found(state, place))),
            Ok(false) => place += 1,
        }
    }
    Ok(None)
}

fn found(state: State, from: usize) -> Match
    ensures { (result.from ≡ from) × (result.to ≡ state.entry.place) × (result.groups ≡ state.entry.groups) }
{
    let State {
        place,
        groups,
        pending: _,
        undo: _,
    } = state;
    Match {
        from,
        to: place,
        groups: groups.into_list(),
    }
}
