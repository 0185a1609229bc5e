//! Trees that no script spells: that they can be made, and what they are printed as; and how refusals are printed.
//!
//! It has tests alone, and stands on js_tree and js_printer.
#![tactic(auto)]

#[cfg(test)]
mod printing;
#[cfg(test)]
mod trees;
