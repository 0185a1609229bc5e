//! What is open while a script runs: an explicit stack in place of recursion.
//!
//! A frame is a part that has begun and not ended, with what is left of it. `specs/RestOf.antt` says what each frame
//! makes of the end that it waits for, by the rules of evaluation. It stands on trees, values and that definition.
#![tactic(auto)]

mod expression_frame;
mod frame;
mod frames;
mod laws;
mod names_left;
mod reference;
mod statement_frame;
mod target_frame;
mod wanted;

pub use expression_frame::{Aim, ExpressionFrame, OpenCall, SuffixFrame};
pub use frame::{Context, EndKind, EntryFrame, Frame, Open};
pub use frames::Frames;
pub use laws::{unwinding_closes, unwinding_keeps_the_rest};
pub use names_left::NamesLeft;
pub use reference::{OUTSIDE, Reference};
pub use statement_frame::{ForInLoop, ForLoop, LoopFrame, StatementFrame, WhileLoop};
pub use target_frame::TargetFrame;
pub use wanted::{Methods, Operated, Wanted};
