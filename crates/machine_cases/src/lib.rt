//! Standard output over an outside whose writes are interrupted.
//!
//! It has tests alone, and stands on pac_machine and pac_ports.
#![tactic(auto)]

#[cfg(test)]
mod tests;
