// What a call tells.
ghost use Rattle.std.specs.Prelude.{◌≡◌};
ghost use Rattle.library_calls.specs.Told.{number_of};

/// How a call ended.
#[derive(Clone, Copy, Debug, PartialEq, Eq)]
pub enum Status {
    /// The answer is told.
    Done,
    /// The run needs a name that isn't told.
    NameWanted,
    /// The room is short of what there is to tell.
    Short,
    /// The script is refused.
    BadScript,
    /// The URL is refused.
    BadUrl,
    /// The names are refused.
    BadNames,
    /// The settings are out of range.
    BadSettings,
    /// The script or the names are longer than a file may be.
    TooLong,
    /// Memory was refused.
    Memory,
}

impl Status {
    /// The number that C is told.
    pub fn number(self) -> u32
        ensures { result ≡ number_of self }
    {
        match self {
            Status::Done => 0,
            Status::NameWanted => 1,
            Status::Short => 2,
            Status::BadScript => 3,
            Status::BadUrl => 4,
            Status::BadNames => 5,
            Status::BadSettings => 6,
            Status::TooLong => 7,
            Status::Memory => 8,
        }
    }
}

/// How a call ended, with the bytes that it has to tell.
#[derive(Drop)]
pub struct Told {
    pub status: Status,
    pub bytes: Vec<u8>,
}
