//! The words of the command line: which command they give, with which arguments.
//!
//! clap reads the words behind a command's name; that it reads them by the rules of `specs/Rules.antt`, for every table
//! of options and positionals, is proved. The values are read here. It stands on clap, on pac_ports for servers, on
//! pac_names for dotted quads and on pac_calendar for zones.
#![tactic(auto)]

mod command;
mod given;
mod number;
mod parse;
mod parsers;
mod quad;
mod usual;
mod words;

pub use command::{Asking, Command, Generating, Running, Source};
pub use usual::{LOCAL, MOST_FUEL, USUAL_FUEL, USUAL_PORT, USUAL_TRIES, USUAL_WAIT};
pub use words::read_words;
