// What comes over a link.

/// What comes over the link: a datagram, or none for a while.
#[derive(Clone, Copy)]
pub enum Event<'a> {
    Datagram(&'a [u8]),
    Tick,
}
