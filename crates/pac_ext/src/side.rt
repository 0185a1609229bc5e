// The groups between colons, as they stand on one side of `::`.
ghost use Rattle.std.specs.Prelude.{◌≡◌, ◌∷◌, [], Some};
ghost use Rattle.std.specs.Option.{option_map};
ghost use Rattle.pac_ext.specs.Reading.{at_most_eight, joined, last_in, one_in, side_in, two_in};

use crate::cut::cut_first;
use crate::group::group_in;
use crate::quad::quad_of;
use arrayvec::ArrayVec;

pub(crate) const COLON: u16 = 58;

/// How the last piece of a side may be written.
#[derive(Clone, Copy)]
pub(crate) enum Ending {
    Group,
    /// Also as a dotted quad, which stands for two groups.
    GroupOrQuad,
}

/// The groups of a side, where there are at most eight.
pub(crate) fn side_in(units: &[u16], ending: Ending) -> Option<ArrayVec<u16, 8>>
    ensures { option_map (λ groups. groups.items) result ≡ at_most_eight (side_in ending units.now) }
{
    let mut groups = ArrayVec::new();
    if units.is_empty() {
        return Some(groups);
    }
    let mut rest = units;
    while let Some(cut) = cut_first(rest, COLON) {
        groups = with_piece(groups, cut.before)?;
        rest = cut.behind;
    }
    with_last(groups, rest, ending)
}

// The groups with that of a piece behind them.
fn with_piece(groups: ArrayVec<u16, 8>, piece: &[u16]) -> Option<ArrayVec<u16, 8>>
    ensures { option_map (λ all. all.items) result ≡ at_most_eight (joined (Some groups.items) (one_in piece.now)) }
{
    let group = group_in(piece)?;
    with_group(groups, group)
}

// The groups with those of the last piece behind them.
fn with_last(groups: ArrayVec<u16, 8>, piece: &[u16], ending: Ending) -> Option<ArrayVec<u16, 8>>
    ensures { option_map (λ all. all.items) result ≡ at_most_eight (joined (Some groups.items) (last_in ending piece.now)) }
{
    match group_in(piece) {
        Some(group) => with_group(groups, group),
        None => match ending {
            Ending::Group => None,
            Ending::GroupOrQuad => with_quad(groups, piece),
        },
    }
}

// The groups with the two of a dotted quad behind them.
fn with_quad(groups: ArrayVec<u16, 8>, piece: &[u16]) -> Option<ArrayVec<u16, 8>>
    ensures { option_map (λ all. all.items) result ≡ at_most_eight (joined (Some groups.items) (two_in piece.now)) }
{
    let quad = quad_of(piece)?;
    let more = with_group(groups, (quad / 65536) as u16)?;
    with_group(more, (quad % 65536) as u16)
}

fn with_group(mut groups: ArrayVec<u16, 8>, group: u16) -> Option<ArrayVec<u16, 8>>
    ensures { option_map (λ all. all.items) result ≡ at_most_eight (joined (Some groups.items) (Some (group ∷ []))) }
{
    groups.try_push(group).ok()?;
    Some(groups)
}
