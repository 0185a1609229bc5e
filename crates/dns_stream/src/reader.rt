// The messages of a stream, read from pieces.
ghost use Rattle.std.specs.Prelude.{◌≡◌, ◌+◌, ◌≤◌, ◌++◌, IfOk, IfSome, length};
ghost use Rattle.std.specs.Option.{option_copied};
ghost use Rattle.dns_stream.specs.Frames.{frames_of};
ghost use Rattle.dns_stream.specs.Reading.{frames_in, nothing_read, wanted_of};

use crate::frame::missing;
use crate::limits::{LONGEST_FRAME, LONGEST_PIECE};
use std::alloc::Global;
use std::marker::Model;
use utf16_text::Memory;

/// Reads the messages of a stream from pieces, however it is cut. It is seen as the octets of the unfinished frame, and
/// the message of the frame that the last piece ended.
#[derive(Drop)]
pub struct Reader {
    /// The unfinished frame, or the one that the last piece ended.
    octets: Vec<u8>,
}

impl Model for Reader {
    ghost use Rattle.std.specs.Prelude.{◌≤◌, length, vec_capacity};
    ghost use Rattle.dns_stream.specs.Frames.{frame_length};
    ghost use Rattle.dns_stream.specs.Reading.{Reading, reading_of};
    ghost use Rattle.dns_stream.specs.declared.limits.TheConstants.{LONGEST_FRAME};

    ghost Value = { Reading };

    ghost view = { λ reader. reading_of reader.octets.items };

    ghost invariant = { λ reader. (LONGEST_FRAME ≤ vec_capacity reader.octets)
        × (length reader.octets.items ≤ frame_length reader.octets.items) };
}

impl Reader {
    /// A reader that holds nothing. It takes the room for the longest frame, so no other call takes memory.
    pub fn new(alloc: Global) -> Result<Reader, Memory>
        ensures { IfOk result (λ reader. reader ≡ nothing_read) }
    {
        let octets = Vec::with_capacity(alloc, LONGEST_FRAME)?;
        Ok(Reader { octets })
    }

    /// How many octets may be fed next: those that are missing from the length of the unfinished frame, or else from
    /// its message, but no more than 512.
    pub fn wanted(&self) -> usize
        ensures wanted { result ≡ wanted_of self.now }
        ensures some { 1 ≤ result }
        ensures room { length self.now.unfinished + result ≤ LONGEST_FRAME }
    {
        match missing(&self.octets) {
            0 => 2,
            missing => missing.min(LONGEST_PIECE),
        }
    }

    /// Takes the next piece of the stream. A message that was there before is dropped.
    pub fn feed(&mut self, piece: &[u8])
        requires some { 1 ≤ length piece.now }
        requires wanted { length piece.now ≤ wanted_of self.old }
        ensures { frames_in self.new ≡ frames_of (self.old.unfinished ++ piece.now) }
    {
        if missing(&self.octets) == 0 {
            self.octets.clear();
        }
        self.octets.extend_from_slice(piece).unwrap();
    }

    /// The message of the frame that the last piece ended.
    pub fn message(&self) -> Option<&[u8]>
        ensures value { option_copied result ≡ self.now.message }
        ensures room { IfSome result (λ message. length message.now ≤ 65535) }
    {
        if missing(&self.octets) > 0 {
            return None;
        }
        Some(&self.octets[2..])
    }

    /// Drops what is there, as at the end of a stream.
    pub fn reset(&mut self)
        ensures { self.new ≡ nothing_read }
    {
        self.octets.clear();
    }
}
