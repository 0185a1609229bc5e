//! Shell expressions: whether a pattern matches a text, as `shExpMatch` of the Netscape Navigator Proxy Auto-Config
//! format.
//!
//! It gives the answer for the whole text, and takes no memory. The walk goes back to the pattern's last star alone, so
//! its time is at worst the product of both lengths. It stands on the texts alone.
#![tactic(auto)]

mod pattern;

pub use pattern::sh_exp_match;
