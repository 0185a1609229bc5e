// The pieces of a text between the matches of a pattern (ECMA-262 5.1, section 15.5.4.14).
ghost use Rattle.std.specs.Prelude.{◌≡◌, ◌<◌, ◌≤◌, ◌*◌, ◌∷◌, Some, IfOk, IfSome, length};
ghost use Rattle.js_pattern.specs.Within.{SpansWithin};
ghost use Rattle.js_regex.specs.Finds.{found_of};
ghost use Rattle.pattern_builtins.specs.Costs.{Takes};
ghost use Rattle.pattern_builtins.specs.Pieces.{found_in, piece};
ghost use Rattle.pattern_builtins.specs.Putting.{Puts};
ghost use Rattle.pattern_builtins.specs.Splitting.{
  begins_before,
  cost_before_end,
  match_before_end,
  splits_from,
  splits_of,
};

use crate::PieceList;
use js_regex::{FindAnswer, Match, Pattern, Span, find};
use std::alloc::Global;
use utf16_text::{Memory, Text};

/// The pieces of a text between the matches of a pattern, each with the groups of the match behind it, at most `limit`
/// (ECMA-262 5.1, section 15.5.4.14). What the searches cost is taken from the fuel: none is made for no piece, nor at
/// the end of a text that isn't empty. Spent comes exactly where they cost more than there is fuel; then, and where
/// memory is refused, no more fuel is left than before.
pub fn split_pieces(
    alloc: Global,
    pattern: &Pattern,
    text: &Text,
    limit: usize,
    fuel: &mut u64,
) -> Result<PieceList, FindAnswer>
    ensures pieces { Takes (splits_of pattern.now text.now limit).cost
        (λ ps. ps ≡ (splits_of pattern.now text.now limit).pieces) fuel.old result fuel.new }
    ensures within { IfOk result (SpansWithin (length text.now)) }
{
    split(alloc, pattern, text, limit, fuel)
}

fn split(
    alloc: Global,
    pattern: &Pattern,
    text: &Text,
    limit: usize,
    fuel: &mut u64,
) -> Result<PieceList, FindAnswer>
    ensures { Takes (splits_of pattern.now text.now limit).cost
        (λ ps. ps ≡ (splits_of pattern.now text.now limit).pieces) fuel.old result fuel.new }
{
    if limit == 0 {
        return Ok(PieceList::new(alloc));
    }
    if text.is_empty() {
        split_empty(alloc, pattern, text, fuel)
    } else {
        split_from_front(alloc, pattern, text, limit, fuel)
    }
}

// An empty text is its own piece, but where the pattern matches it there is none.
fn split_empty(
    alloc: Global,
    pattern: &Pattern,
    text: &Text,
    fuel: &mut u64,
) -> Result<PieceList, FindAnswer>
    requires { length text.now ≡ 0 }
    ensures { Takes (splits_of pattern.now text.now 1).cost
        (λ ps. ps ≡ (splits_of pattern.now text.now 1).pieces) fuel.old result fuel.new }
{
    let mut pieces = PieceList::new(alloc);
    match find(alloc, pattern, text, 0, fuel) {
        Err(answer) => Err(answer),
        Ok(Some(_)) => Ok(pieces),
        Ok(None) => {
            pieces.push(alloc, Some(Span { from: 0, to: 0 }))?;
            Ok(pieces)
        }
    }
}

fn split_from_front(
    alloc: Global,
    pattern: &Pattern,
    text: &Text,
    limit: usize,
    fuel: &mut u64,
) -> Result<PieceList, FindAnswer>
    requires { 0 < limit }
    ensures { Takes (splits_from (2 * length text.now) pattern.now text.now limit 0 0).cost
        (λ ps. ps ≡ (splits_from (2 * length text.now) pattern.now text.now limit 0 0).pieces) fuel.old result fuel.new }
{
    let end = text.len();
    let mut pieces = PieceList::new(alloc);
    let mut from = 0;
    let mut place = 0;
    loop {
        match match_before_end(alloc, pattern, text, place, fuel) {
            Err(answer) => return Err(answer),
            Ok(None) => break,
            Ok(Some(found)) => {
                if found.to == from {
                    place = found.from + 1;
                    continue;
                }
                if !put(alloc, &mut pieces, from, &found, limit)? {
                    return Ok(pieces);
                }
                from = found.to;
                place = found.to;
            }
        }
    }
    pieces.push(alloc, Some(Span { from, to: end }))?;
    Ok(pieces)
}

// The first match from a place on that begins before the end of the text. At the end none is looked for.
fn match_before_end(
    alloc: Global,
    pattern: &Pattern,
    text: &Text,
    place: usize,
    fuel: &mut u64,
) -> Result<Option<Match>, FindAnswer>
    ensures { Takes (cost_before_end pattern.now text.now place)
        (λ found. found_of found ≡ match_before_end pattern.now text.now place) fuel.old result fuel.new }
{
    if place >= text.len() {
        return Ok(None);
    }
    match find(alloc, pattern, text, place, fuel) {
        Err(answer) => Err(answer),
        Ok(None) => Ok(None),
        Ok(Some(found)) => Ok(before(found, text.len())),
    }
}

fn before(found: Match, end: usize) -> Option<Match>
    ensures { found_of result ≡ begins_before end (Some (found_in found)) }
{
    if found.from < end { Some(found) } else { None }
}

// Puts the piece before a match and the groups of the match behind the others, up to the limit, and says whether there
// is room for more.
fn put(
    alloc: Global,
    pieces: &mut PieceList,
    from: usize,
    found: &Match,
    limit: usize,
) -> Result<bool, Memory>
    requires { length pieces.old < limit }
    ensures { IfOk result (λ room. Puts limit (piece from found.now.from ∷ found.now.groups) pieces.old room pieces.new) }
{
    let to = found.from;
    pieces.push(alloc, Some(Span { from, to }))?;
    let mut left = found.groups.as_slice();
    while let [group, more @ ..] = left {
        if pieces.len() == limit {
            return Ok(false);
        }
        pieces.push(alloc, *group)?;
        left = more;
    }
    Ok(pieces.len() < limit)
}
