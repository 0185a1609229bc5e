// What is taken where the words don't say it, and how much fuel they may give.

/// The fuel of a run.
pub const USUAL_FUEL: u64 = 10_000_000;

/// The most fuel that words give.
pub const MOST_FUEL: u64 = 1_000_000_000;

/// How many beats pass from the first sending of a question to the second.
pub const USUAL_WAIT: u32 = 10;

/// How often a question is sent.
pub const USUAL_TRIES: u32 = 4;

/// The address of this machine, and of its server: 127.0.0.1.
pub const LOCAL: u32 = 2_130_706_433;

/// The port of a server.
pub const USUAL_PORT: u16 = 53;
