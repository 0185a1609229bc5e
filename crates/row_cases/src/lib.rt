//! Fields of tables of cases: what is written is read, and escapes that are none are refused.
//!
//! It has tests alone, and stands on case_rows.
#![tactic(auto)]

#[cfg(test)]
mod escapes;
