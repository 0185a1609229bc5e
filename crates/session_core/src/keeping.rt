// Sessions that go on.
ghost use Rattle.std.specs.Prelude.{◌≡◌, false};
ghost use Rattle.session_core.specs.Waiting.{IsKept};

use crate::roster::Roster;

/// All sessions. The places of those that wait are kept, unless memory ran out in the midst of an event.
#[derive(Drop)]
pub(crate) struct Keeping<R, O> {
    pub(crate) roster: Roster<R, O>,
    pub(crate) broken: bool,
    pub(crate) ghost kept: { broken ≡ false → IsKept roster },
}
