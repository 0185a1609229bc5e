// What is to come over a link in memory.
ghost use Rattle.std.specs.Prelude.{
  ◌≡◌,
  ◌≤◌,
  ◌<◌,
  ◌++◌,
  None,
  Some,
  drop,
  if◌then◌else◌,
  length,
  nat_lt,
  take,
  vec_len,
};

use crate::Octets;
use std::marker::Model;

/// An event that is to come.
#[derive(Drop)]
pub(crate) enum Coming {
    Datagram(Octets),
    Tick,
    Piece(Pending),
    StreamEnd,
}

/// The octets of one piece of a stream that are still to come. There are some.
#[derive(Drop)]
pub(crate) struct Pending {
    octets: Vec<u8>,
    // How many of them came.
    taken: usize,
}

impl Model for Pending {
    ghost use Rattle.std.specs.Prelude.{List, ℕ, ◌<◌, drop, vec_len};

    ghost Value = { List ℕ };

    ghost view = { λ p. drop p.taken p.octets.items };

    ghost invariant = { λ p. p.taken < vec_len p.octets };
}

impl Pending {
    /// All of these, of which there are some, are still to come.
    pub(crate) fn new(octets: Vec<u8>) -> Pending
        requires { 0 < vec_len octets }
        ensures { result ≡ octets.items }
    {
        Pending { octets, taken: 0 }
    }

    /// The next octets, as many as are wanted where there are so many, and those behind them.
    pub(crate) fn split(mut self, wanted: usize) -> (Octets, Option<Pending>)
        requires some { 1 ≤ wanted }
        requires within { wanted ≤ 512 }
        ensures taken { result.0 ≡ take wanted self }
        ensures left { result.1 ≡ (if nat_lt wanted (length self) then Some (drop wanted self) else None) }
    {
        let left = self.octets.len() - self.taken;
        let front = &self.octets[self.taken..];
        if wanted >= left {
            return (Octets::new(front), None);
        }
        let octets = Octets::new(&front[..wanted]);
        self.taken += wanted;
        (octets, Some(self))
    }
}

/// Puts octets at the front of the buffer, and says how many.
pub(crate) fn fill(buffer: &mut [u8; 512], octets: &Octets) -> usize
    ensures filled { buffer.new ≡ octets.now ++ drop (length octets.now) buffer.old }
    ensures length { result ≡ length octets.now }
{
    let octets = octets.as_slice();
    buffer[..octets.len()].copy_from_slice(octets);
    octets.len()
}
