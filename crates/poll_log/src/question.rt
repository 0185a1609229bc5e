// What is asked.
ghost use Rattle.std.specs.Prelude.{◌≡◌};

use pac_names::LookupName;

/// The question for the address of a name: its number, which is the same at each sending, and the name.
#[derive(Debug, PartialEq, Eq, Drop)]
pub struct Question {
    pub id: u16,
    pub name: LookupName,
}

impl Question {
    /// The same question once more.
    pub fn copy(&self) -> Question
        ensures { result ≡ self.now }
    {
        Question {
            id: self.id,
            name: self.name.copy(),
        }
    }
}
