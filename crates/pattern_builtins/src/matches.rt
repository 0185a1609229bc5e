// The matches of a pattern in a text, one behind the other (ECMA-262 5.1, sections 15.5.4.10 and 15.5.4.11).
ghost use Rattle.std.specs.Prelude.{◌≡◌, ◌<◌, IfOk, length, map};
ghost use Rattle.pattern_builtins.specs.Costs.{Takes};
ghost use Rattle.pattern_builtins.specs.Matches.{all_searches, first_search, next_place, searches_of};
ghost use Rattle.pattern_builtins.specs.Pieces.{InOrder, found_in};

use js_regex::{FindAnswer, Match, Pattern, find};
use std::alloc::Global;
use utf16_text::{List, Text};

/// Matches of a pattern, in order.
pub type MatchList = List<Match>;

/// All matches of a pattern, as `match` looks for those of a global one: each search begins where the match before ends,
/// or one unit behind it where that search began there too (ECMA-262 5.1, section 15.5.4.10). What all searches cost,
/// the last one with them, is taken from the fuel. Spent comes exactly where they cost more than there is fuel; then,
/// and where memory is refused, no more fuel is left than before.
pub fn all_matches(
    alloc: Global,
    pattern: &Pattern,
    text: &Text,
    fuel: &mut u64,
) -> Result<MatchList, FindAnswer>
    ensures matches { Takes (all_searches pattern.now text.now).cost
        (λ ms. map found_in ms ≡ (all_searches pattern.now text.now).found) fuel.old result fuel.new }
    ensures within { IfOk result (InOrder (length text.now) 0) }
{
    search_all(alloc, pattern, text, fuel)
}

fn search_all(
    alloc: Global,
    pattern: &Pattern,
    text: &Text,
    fuel: &mut u64,
) -> Result<MatchList, FindAnswer>
    ensures { Takes (all_searches pattern.now text.now).cost
        (λ ms. map found_in ms ≡ (all_searches pattern.now text.now).found) fuel.old result fuel.new }
{
    let end = text.units().len();
    let mut matches = MatchList::new(alloc);
    let mut place = 0;
    while place <= end {
        match find(alloc, pattern, text, place, fuel) {
            Err(answer) => return Err(answer),
            Ok(None) => return Ok(matches),
            Ok(Some(found)) => {
                place = next_place(place, found.to);
                matches.push(alloc, found)?;
            }
        }
    }
    Ok(matches)
}

// The first match, or none.
fn first_matches(
    alloc: Global,
    pattern: &Pattern,
    text: &Text,
    fuel: &mut u64,
) -> Result<MatchList, FindAnswer>
    ensures matches { Takes (first_search pattern.now text.now).cost
        (λ ms. map found_in ms ≡ (first_search pattern.now text.now).found) fuel.old result fuel.new }
    ensures within { IfOk result (InOrder (length text.now) 0) }
{
    let mut matches = MatchList::new(alloc);
    match find(alloc, pattern, text, 0, fuel) {
        Err(answer) => Err(answer),
        Ok(None) => Ok(matches),
        Ok(Some(found)) => {
            matches.push(alloc, found)?;
            Ok(matches)
        }
    }
}

/// All matches of a global pattern, or the first of another one, as `replace` looks for them, at their cost as in
/// `all_matches`.
pub fn matches_of(
    alloc: Global,
    pattern: &Pattern,
    text: &Text,
    fuel: &mut u64,
) -> Result<MatchList, FindAnswer>
    ensures matches { Takes (searches_of pattern.now text.now).cost
        (λ ms. map found_in ms ≡ (searches_of pattern.now text.now).found) fuel.old result fuel.new }
    ensures within { IfOk result (InOrder (length text.now) 0) }
{
    if pattern.flags().global {
        all_matches(alloc, pattern, text, fuel)
    } else {
        first_matches(alloc, pattern, text, fuel)
    }
}

fn next_place(from: usize, end: usize) -> usize
    requires { end < 18446744073709551615 }
    ensures { result ≡ next_place from end }
{
    if end == from { end + 1 } else { end }
}
