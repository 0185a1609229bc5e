//! Tables of cases as text: a program of cases does what each row says, and is told which rows do not hold.
//!
//! A line that begins with `#` is a comment, and `part NAME` begins a part. Each other line is a row: its fields,
//! parted by tabs, and behind ` => ` what is to come of them, which is compared as it stands. A field may write a unit
//! or an octet as an escape. It stands on utf16_text and whole_number, and only programs of cases stand on it.
#![tactic(auto)]

mod escape;
mod sample;
mod table;

pub use escape::{octets, text, written_octets, written_text};
pub use sample::{Sample, samples};
pub use table::run;
