// How a command ended.
ghost use Rattle.std.specs.Prelude.{◌≡◌};
ghost use Rattle.pac_plan.specs.Exit.{exit_number};

/// What the program exits with, in the order of the exit statuses 0 to 8.
#[derive(Clone, Copy, Debug, PartialEq, Eq)]
pub enum Status {
    /// All else: the report was written.
    Good,
    /// Some outcome is a fault of the script.
    ScriptFault,
    /// The words aren't read.
    Usage,
    /// A file failed.
    ReadFault,
    /// A file is too long, or the script, the batch, the names file or the URL is refused.
    Refused,
    /// Some name stayed unanswered.
    Unanswered,
    /// The link failed.
    LinkFault,
    /// The sink failed: a front of what was to be written was written.
    WriteFault,
    /// Memory was refused: nothing was written.
    Memory,
}

impl Status {
    /// The number that the program exits with.
    pub fn number(self) -> u8
        ensures { result ≡ exit_number self }
    {
        match self {
            Status::Good => 0,
            Status::ScriptFault => 1,
            Status::Usage => 2,
            Status::ReadFault => 3,
            Status::Refused => 4,
            Status::Unanswered => 5,
            Status::LinkFault => 6,
            Status::WriteFault => 7,
            Status::Memory => 8,
        }
    }
}
