// Parts of a text by their places.
ghost use Rattle.std.specs.Prelude.{◌≡◌, ℕ, IfOk, map};
ghost use Rattle.js_pattern.specs.Within.{SpansWithin};
ghost use Rattle.js_regex.specs.Finds.{MatchWithin};
ghost use Rattle.pattern_builtins.specs.Pieces.{InOrder, found_in, pieces_of, whole, wholes};

use crate::MatchList;
use js_regex::{Match, Span};
use std::alloc::Global;
use utf16_text::{List, Memory};

/// Parts of a text, in order. None is the part of a group that is unset.
pub type PieceList = List<Option<Span>>;

/// The whole match and then its groups, as `exec` gives them, and `match` for a pattern that isn't global (ECMA-262 5.1,
/// section 15.10.6.2).
pub fn pieces_of_match(alloc: Global, found: &Match) -> Result<PieceList, Memory>
    ensures pieces { IfOk result (λ ps. ps ≡ pieces_of (found_in found.now)) }
    ensures within { (end : ℕ) → MatchWithin end found.now → IfOk result (SpansWithin end) }
{
    let groups = found.groups.as_slice();
    let mut pieces = PieceList::new(alloc);
    pieces.push(alloc, whole(found))?;
    for group in groups {
        pieces.push(alloc, *group)?;
    }
    Ok(pieces)
}

/// Each whole match, as `match` gives them for a global pattern (ECMA-262 5.1, section 15.5.4.10).
pub fn pieces_of_matches(alloc: Global, matches: &MatchList) -> Result<PieceList, Memory>
    ensures pieces { IfOk result (λ ps. ps ≡ wholes (map found_in matches.now)) }
    ensures within { (end : ℕ) → InOrder end 0 matches.now → IfOk result (SpansWithin end) }
{
    let mut pieces = PieceList::new(alloc);
    for found in matches.as_slice() {
        pieces.push(alloc, whole(found))?;
    }
    Ok(pieces)
}

fn whole(found: &Match) -> Option<Span>
    ensures { result ≡ whole (found_in found.now) }
{
    Some(Span {
        from: found.from,
        to: found.to,
    })
}
