//! What the methods of texts do with a pattern (ECMA-262 edition 5.1, sections 15.5.4.10, 15.5.4.11 and 15.5.4.14): all
//! matches, the text with them replaced, and the pieces between them, at an exact cost.
//!
//! It works on values alone. What a script sees as an array of texts is given as a list of parts of the text. It stands
//! on the search for a pattern and the texts.
#![tactic(auto)]

mod laws;
mod matches;
mod pieces;
mod replacing;
mod skipping;
mod splitting;

pub use laws::{more_searches_find_no_more, more_turns_split_alike};
pub use matches::{MatchList, all_matches, matches_of};
pub use pieces::{PieceList, pieces_of_match, pieces_of_matches};
pub use replacing::replace;
pub use splitting::split_pieces;
