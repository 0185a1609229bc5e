//! Messages over a stream: each stands behind its length in two octets (RFC 1035, section 4.2.2; RFC 7766, section 8).
//!
//! A question is written as a frame, and the messages of a stream are read from pieces, however it is cut. It stands on
//! dns_message.
#![tactic(auto)]

mod frame;
mod laws;
mod limits;
mod reader;

pub use frame::write_frame;
pub use laws::{pieces_are_the_stream, streams_have_frames, written_frames_are_read};
pub use reader::Reader;
