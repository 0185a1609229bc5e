//! The link over UDP beside servers and a stranger on loopback, its stream beside a listener, and dice.
//!
//! It has tests alone, and stands on pac_net.
#![tactic(auto)]

#[cfg(test)]
mod loopback;
#[cfg(test)]
mod streams;
#[cfg(test)]
mod tests;
