//! The laws of names: a run by slots is the run by names, and each rule for names does what the standard says of scopes
//! that are lists of names with their values.
//!
//! `specs/Laws.antt` states the first on the definition of evaluation in js_evaluation, of which each rule stands over
//! how a run has its scopes. `specs/LookUps.antt` states of reads, of `typeof` and of `delete` that they are look-ups,
//! and `specs/Writes.antt` which pair a write changes, and what a new scope is. The crate has no code that runs. It
//! stands on js_law_right, by which each name of a resolved script has the slot where it is found, and on js_law_read,
//! by which that holds of each script that is read.
#![tactic(auto)]

mod laws;

pub use laws::{
    deletes_are_look_ups, first_scopes_fit, found_in_place, found_where_held, names_are_slots,
    new_scopes_are_around, reads_are_look_ups, reads_run_by_names, types_are_look_ups,
    writes_are_look_ups, writes_behind_scopes, writes_have_their_place, written_is_found,
};
