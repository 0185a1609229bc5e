// When a question is sent, and when it is given up.
ghost use Rattle.std.specs.Prelude.{◌≡◌, ◌≤◌};
ghost use Rattle.poll_log.specs.Sendings.{AreTerms, limit, sending_age, sending_at, server_of};

use pac_ports::Which;

/// How many datagrams without a tick among them are a beat.
pub const FLOOD: u64 = 4096;

/// The most beats from the first sending of a question to the second.
pub const MOST_WAIT: u32 = 1000;

/// The most sendings of a question.
pub const MOST_TRIES: u32 = 8;

/// How many beats pass from the first sending of a question to the second, and how many sendings there are. From each
/// sending to the next it is twice as long as before.
#[derive(Clone, Copy, Debug, PartialEq, Eq)]
pub struct Terms {
    pub wait: u32,
    pub tries: u32,
}

impl Terms {
    /// The age at which a question is given up, in beats since its first sending.
    pub fn limit(self) -> u32
        requires { AreTerms self }
        ensures { result ≡ limit self }
    {
        self.sending_age(self.tries)
    }

    /// The number of the sending, behind the first, that falls due at this age, if one does. The first has the number 0.
    pub fn sending_at(self, age: u32) -> Option<u32>
        requires { AreTerms self }
        ensures { result ≡ sending_at self age }
    {
        for number in (1..self.tries).rev() {
            if self.sending_age(number) == age {
                return Some(number);
            }
        }
        None
    }

    // The age at which the sending of this number falls due.
    fn sending_age(self, number: u32) -> u32
        requires terms { AreTerms self }
        requires number { number ≤ self.tries }
        ensures { result ≡ sending_age self.wait number }
    {
        self.wait * (2u32.pow(number) - 1)
    }
}

/// The server that the sending of this number goes to: the first one, then the second, and so on in turn.
pub fn server_of(number: u32) -> Which
    ensures { result ≡ server_of number }
{
    if number % 2 == 0 {
        Which::First
    } else {
        Which::Second
    }
}
