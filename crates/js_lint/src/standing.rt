// What this language knows of a name.
use crate::Advice;

/// What this language knows of a name.
#[derive(Clone, Copy)]
pub(crate) enum Standing {
    /// It has what the name says.
    Here,
    /// It has it, and `new` may stand before it.
    Constructor,
    /// It hasn't; the standard or browsers have.
    Missing(Advice),
}
