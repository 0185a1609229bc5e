//! What a script does, place by place: `sites` lists it, in the order in which it is written.
//!
//! A site is a global name that stands there or is written, a property that is named or made, a text with what it is
//! handed to or compared with, or a function. Which of them are told is a definition over the resolved script
//! (`specs/Sites.antt`, `specs/Program.antt`). It stands on js_scope and the definitions of js_binding.
#![tactic(auto)]

mod expressions;
mod names;
mod program;
mod site;
mod statements;
mod texts;
mod writes;

pub use program::sites;
pub use site::{Site, SiteList};
