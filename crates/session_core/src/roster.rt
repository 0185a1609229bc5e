// All sessions.
use crate::Session;
use crate::waiting::Waiting;

/// The sessions in their order, and who of them waits for which name.
#[derive(Drop)]
pub(crate) struct Roster<R, O> {
    pub(crate) all: Vec<Session<R, O>>,
    pub(crate) waiting: Waiting,
}
