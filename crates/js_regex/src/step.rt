// What a match does next, what it has before it, and what it does where it goes back.
use js_pattern::{Bounds, Node, Span};

/// What is still to be matched, behind the terms at hand.
#[derive(Clone, Copy)]
pub(crate) enum Pending<'p> {
    /// A term, and those behind it in its row.
    Terms(&'p Node, &'p [Node]),
    /// The mark behind a group, which has this number if it is kept, and began at a place.
    Close(Option<u8>, usize),
    /// The mark behind a turn of a Repeat, which began at a place, and then the smaller Repeat.
    Turn(&'p Node, Bounds, usize),
}

/// What is undone or tried where a match goes back, the last first.
#[derive(Clone, Copy)]
pub(crate) enum Undo<'p> {
    /// Something was put on top of what is pending.
    Pushed,
    /// This was taken from the top of what is pending: as in `Pending`, whose variants stand here for a note that is
    /// eight bytes smaller.
    Terms(&'p Node, &'p [Node]),
    Close(Option<u8>, usize),
    Turn(&'p Node, Bounds, usize),
    /// A group was set; this it was before.
    Group(u8, Option<Span>),
    /// From this place these alternatives are left: one, and those behind it.
    Alternatives(usize, &'p Node, &'p [Node]),
    /// A Repeat can be left from the second of these places, and where that fails from each before it down to the first.
    Leave(usize, usize),
    /// From this place a Repeat can take a turn.
    Take(usize, &'p Node, Bounds),
}

/// What a match does next.
#[derive(Clone, Copy)]
pub(crate) enum Step<'p> {
    /// A part is taken up, with the terms behind it in its row.
    Part(&'p Node, &'p [Node]),
    /// A Repeat is taken up.
    Repeat(&'p Node, Bounds),
    /// The mark behind a group is taken up.
    Close(Option<u8>, usize),
    /// The mark behind a turn is taken up.
    Turn(&'p Node, Bounds, usize),
    /// A Repeat that was taken up takes its turns.
    Turns(&'p Node, Bounds),
    /// A Repeat is left from the second of these places, or from the next before it down to the first.
    Leave(usize, usize),
    /// It goes on with these terms, and then with what is pending.
    On(&'p [Node]),
    /// It goes back.
    Back,
}
