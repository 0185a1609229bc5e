// Moves over a link. A link in memory takes the room for its moves beforehand, so this list shows its `Vec`: a list
// that contracts see as its items alone can't promise that a push finds room.
ghost use Rattle.std.specs.Prelude.{◌≡◌, ◌<◌, ◌++◌, ◌∷◌, ◌↔◌, [], IsTrue, OnOk, OnErr, length, slice_get, Some};
ghost use Rattle.pac_ports.specs.MoveList.{moves};

use crate::Move;
use std::alloc::Global;
use utf16_text::Memory;

/// A list of moves, in order.
#[derive(Drop)]
pub struct MoveList {
    pub(crate) moves: Vec<Move>,
}

impl MoveList {
    /// An empty list. It takes no memory.
    pub fn new(alloc: Global) -> MoveList
        ensures { moves result ≡ [] }
    {
        MoveList {
            moves: Vec::new(alloc),
        }
    }

    /// Puts a move at the end.
    pub fn push(&mut self, _alloc: Global, item: Move) -> Result<(), Memory>
        ensures ok { OnOk result (moves self.new ≡ moves self.old ++ item ∷ []) }
        ensures unchanged { OnErr result (moves self.new ≡ moves self.old) }
    {
        self.moves.push(item)?;
        Ok(())
    }

    /// The number of moves.
    pub fn len(&self) -> usize
        ensures { result ≡ length (moves self.now) }
    {
        self.moves.len()
    }

    /// Whether there is no move.
    pub fn is_empty(&self) -> bool
        ensures { IsTrue result ↔ (length (moves self.now) ≡ 0) }
    {
        self.len() == 0
    }

    /// The move at a place, counted from 0.
    pub fn at(&self, i: usize) -> &Move
        requires { i < length (moves self.now) }
        ensures { slice_get (moves self.now) i ≡ Some result.now }
    {
        &self.moves[i]
    }
}
