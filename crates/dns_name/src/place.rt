// A walk along the labels of a name.
ghost use Rattle.std.specs.Prelude.{◌≡◌, ◌+◌, length};
ghost use Rattle.dns_name.specs.Walk.{NextIs};

use crate::part::{Part, read_part};

/// A place in a name: an offset, in the piece that begins at another.
#[derive(Clone, Copy)]
pub(crate) struct Place {
    pub(crate) piece: usize,
    pub(crate) at: usize,
}

/// What a name goes on with.
#[derive(Drop)]
pub(crate) enum Next<'a> {
    /// A label, and the place behind it.
    Label(&'a [u8], Place),
    /// The root: there is no further label.
    End,
    /// Neither, so that this is no name.
    Neither,
}

pub(crate) fn next_label(message: &[u8], place: Place) -> Next<'_>
    ensures { NextIs message.now place result }
{
    let Place { mut piece, mut at } = place;
    'pointers: loop {
        match read_part(message, at) {
            Part::End => return Next::End,
            Part::Label(octets) => {
                let behind = at + 1 + octets;
                return Next::Label(&message[at + 1..behind], Place { piece, at: behind });
            }
            Part::Pointer(target) => {
                if target >= piece {
                    return Next::Neither;
                }
                piece = target;
                at = target;
            }
            Part::Neither => return Next::Neither,
        }
    }
}
