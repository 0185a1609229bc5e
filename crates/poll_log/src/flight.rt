// What is waited for.
use crate::question::Question;

/// A question in flight, with its age: the beats since its first sending.
#[derive(Debug, PartialEq, Eq, Drop)]
pub struct Flight {
    pub question: Question,
    pub age: u32,
}
