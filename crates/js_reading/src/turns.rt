// Rows of parts.
ghost use Rattle.std.specs.Prelude.{◌≡◌, ◌++◌, ◌∷◌, [], Ok, OnOk};
ghost use Rattle.js_grammar.specs.declared.turn.Turn.TheVariants.{More};
ghost use Rattle.js_grammar.specs.Readers.{Reader, row, row_of};
ghost use Rattle.js_reading.specs.Reads.{Reads, with_front};

use crate::reading::Read;
use js_grammar::Turn;
use js_tree::Token;
use std::alloc::Global;
use utf16_text::{List, Memory};

/// The parts that turns give one after another, up to the last. It is the row of any reader that the turns read by. The
/// first refusal of a turn ends it, and so does want of memory.
pub fn row<'a, T: Drop, F: Fn(&'a [Token]) -> Read<'a, Turn<T>>>(
    alloc: Global,
    tokens: &'a [Token],
    turn: F,
) -> Read<'a, List<T>>
    requires { F.IsAlwaysCallable turn }
    ensures { (reader : Reader (Turn T)) → ((before : _) (given : _) → F.post turn before given → Reads (reader before.now) given) → Reads (row reader tokens.now) result }
{
    // Each turn but the last takes a token at least.
    parts_behind(Vec::new(alloc), tokens, tokens.len() + 1, turn)
}

/// The same row behind its first turn, which gave a part and left the rest of the tokens.
pub fn row_behind<'a, T: Drop, F: Fn(&'a [Token]) -> Read<'a, Turn<T>>>(
    alloc: Global,
    first: T,
    tokens: &[Token],
    rest: &'a [Token],
    turn: F,
) -> Read<'a, List<T>>
    requires { F.IsAlwaysCallable turn }
    ensures { (reader : Reader (Turn T)) → ((before : _) (given : _) → F.post turn before given → Reads (reader before.now) given) → reader tokens.now ≡ Ok (More first, rest.now) → Reads (row reader tokens.now) result }
{
    let mut all = Vec::new(alloc);
    add_part(&mut all, first)?;
    parts_behind(all, rest, tokens.len(), turn)
}

/// The parts of at most so many turns, behind those that are there.
fn parts_behind<'a, T: Drop, F: Fn(&'a [Token]) -> Read<'a, Turn<T>>>(
    before: Vec<T>,
    tokens: &'a [Token],
    turns: usize,
    turn: F,
) -> Read<'a, List<T>>
    requires { F.IsAlwaysCallable turn }
    ensures { (reader : Reader (Turn T)) → ((before : _) (given : _) → F.post turn before given → Reads (reader before.now) given) → Reads (with_front before.items (row_of reader turns tokens.now)) result }
{
    let mut all = before;
    let mut rest = tokens;
    for _turn in 0..turns {
        let (one, after) = turn(rest)?;
        match one {
            Turn::More(x) => {
                add_part(&mut all, x)?;
                rest = after;
            }
            Turn::Last(x) => {
                add_part(&mut all, x)?;
                return Ok((List::from_vec(all), after));
            }
            Turn::End => return Ok((List::from_vec(all), after)),
        }
    }
    Ok((List::from_vec(all), rest))
}

/// Puts a part at the end of a row. Most rows have one part or two, so the room doubles from one on.
pub fn add_part<T: Drop>(parts: &mut Vec<T>, part: T) -> Result<(), Memory>
    ensures { OnOk result (parts.new.items ≡ parts.old.items ++ part ∷ []) }
{
    if parts.len() == parts.capacity() {
        parts.reserve_exact(parts.len().max(1))?;
    }
    parts.push(part)?;
    Ok(())
}
