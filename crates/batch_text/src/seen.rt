// What a script sees of a URL, and why it sees nothing.
use std::alloc::AllocError;
use utf16_text::{Memory, Text};

/// What a script sees of a URL.
#[derive(Drop)]
pub struct View {
    /// The URL without user, password and fragment; for `https` and `wss` with the path `/` and no query.
    pub url: Text,
    /// The host; that of an IPv6 address without its brackets.
    pub host: Text,
}

/// Why a text has no view.
#[derive(Clone, Copy, Debug, Drop, PartialEq, Eq)]
pub enum ViewAnswer {
    /// It is longer than 8,192 bytes, no URL, or its scheme is none of `http`, `https`, `ws`, `wss` and `ftp`.
    BadUrl,
    Memory,
}

impl From<Memory> for ViewAnswer {
    ghost use Rattle.std.specs.Prelude.{◌≡◌};
    ghost use Rattle.batch_text.specs.declared.seen.ViewAnswer.TheVariants as answer;

    ghost from_gives = { λ _ e. e ≡ answer.Memory };

    fn from(_: Memory) -> ViewAnswer {
        ViewAnswer::Memory
    }
}

impl From<AllocError> for ViewAnswer {
    ghost use Rattle.std.specs.Prelude.{◌≡◌};
    ghost use Rattle.batch_text.specs.declared.seen.ViewAnswer.TheVariants as answer;

    ghost from_gives = { λ _ e. e ≡ answer.Memory };

    fn from(_: AllocError) -> ViewAnswer {
        ViewAnswer::Memory
    }
}
