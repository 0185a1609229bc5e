//! The machine as the program sees it: files by name, standard output, the clock, and the words of the command line.
//!
//! The adapters are a few lines each, and all but the clock's tell nothing: what a file holds and where output goes is the
//! machine's matter. It stands on pac_ports, whose traits they meet.
#![tactic(auto)]

mod disk_files;
mod machine_clock;
mod standard_output;
mod words;

pub use disk_files::DiskFiles;
pub use machine_clock::MachineClock;
pub use standard_output::StandardOutput;
pub use words::words_of;
