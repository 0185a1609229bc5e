//! What becomes of questions in flight: tables of beats and datagrams.
//!
//! The cases are those of docs/DNS.md and of RFC 1035 (section 4.1): repeats and deaths at their beats, and datagrams
//! that are forged, cut, doubled, late or a flood. It has tests alone, and stands on stub_poller.
#![tactic(auto)]

#[cfg(test)]
mod tests;
