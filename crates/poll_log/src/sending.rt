// What is sent.
ghost use Rattle.std.specs.Prelude.{◌≡◌};

use crate::question::Question;
use pac_ports::Which;

/// A question, with the server that it is sent to.
#[derive(Debug, PartialEq, Eq, Drop)]
pub struct Sending {
    pub to: Which,
    pub question: Question,
}

impl Sending {
    /// The first sending of a question, which goes to the first server.
    pub fn first(question: Question) -> Sending
        ensures { result ≡ record { to = Which.First; question = question } }
    {
        Sending {
            to: Which::First,
            question,
        }
    }

    /// The same sending once more.
    pub fn copy(&self) -> Sending
        ensures { result ≡ self.now }
    {
        Sending {
            to: self.to,
            question: self.question.copy(),
        }
    }
}
