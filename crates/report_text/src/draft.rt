// Texts that are written at once from their pieces.
ghost use Rattle.std.specs.Prelude.{◌≡◌, ◌++◌, OnOk, false, length, min};
ghost use Rattle.utf16_text.specs.Escape.{escaped, escaped_unit};
ghost use Rattle.report_text.specs.Draft.{largest_size, piece_bytes};

use std::alloc::Global;
use std::marker::Model;
use utf16_text::{Memory, Text};

/// A piece of a text.
#[derive(Drop)]
enum Piece<'a> {
    Bytes(&'a [u8]),
    /// A text in ASCII, its other units escaped.
    Escaped(&'a Text),
    Made(Vec<u8>),
}

/// The pieces of a text of bytes, in their order. Those that stand elsewhere are lent, so that a long text is made but
/// once, in memory of its size. Contracts see the bytes of the whole text.
#[derive(Drop)]
pub(crate) struct Draft<'a> {
    pieces: Vec<Piece<'a>>,
}

impl<'a> Model for Draft<'a> {
    ghost use Rattle.std.specs.Prelude.{ℕ, List, flat_map};
    ghost use Rattle.report_text.specs.Draft.{piece_bytes};

    ghost Value = { List ℕ };

    ghost view = { λ d. flat_map piece_bytes d.pieces.items };
}

impl<'a> Draft<'a> {
    ghost use Rattle.std.specs.Prelude.{[], IfOk};

    /// A text without pieces.
    pub(crate) fn new(alloc: Global) -> Draft<'a>
        ensures { result ≡ [] }
    {
        Draft {
            pieces: Vec::new(alloc),
        }
    }

    /// Adds bytes that stand elsewhere.
    pub(crate) fn bytes(&mut self, bytes: &'a [u8]) -> Result<(), Memory>
        ensures { OnOk result (self.new ≡ self.old ++ bytes.now) }
    {
        self.add(Piece::Bytes(bytes))
    }

    /// Adds a text that stands elsewhere, escaped.
    pub(crate) fn escaped(&mut self, text: &'a Text) -> Result<(), Memory>
        ensures { OnOk result (self.new ≡ self.old ++ escaped false text.now) }
    {
        self.add(Piece::Escaped(text))
    }

    /// Adds bytes that were made for it.
    pub(crate) fn made(&mut self, bytes: Vec<u8>) -> Result<(), Memory>
        ensures { OnOk result (self.new ≡ self.old ++ bytes.items) }
    {
        self.add(Piece::Made(bytes))
    }

    #[tactic(auto, using(crate::proofs::Pieces::one_more))]
    fn add(&mut self, piece: Piece<'a>) -> Result<(), Memory>
        ensures { OnOk result (self.new ≡ self.old ++ piece_bytes piece.entry) }
    {
        self.pieces.push(piece)?;
        Ok(())
    }

    /// The text, in memory that is taken at once.
    pub(crate) fn written(&self, alloc: Global) -> Result<Vec<u8>, Memory>
        ensures { IfOk result (λ bytes. bytes.items ≡ self.now) }
    {
        let mut out = Vec::with_capacity(alloc, self.size())?;
        for piece in self.pieces.as_slice() {
            write_piece(alloc, piece, &mut out)?;
        }
        Ok(out)
    }

    // How many bytes the text has.
    fn size(&self) -> usize
        ensures { result ≡ min (length self.now) largest_size }
    {
        let mut size = 0usize;
        for piece in self.pieces.as_slice() {
            size = size.saturating_add(piece_size(piece));
        }
        size
    }
}

fn write_piece(alloc: Global, piece: &Piece<'_>, out: &mut Vec<u8>) -> Result<(), Memory>
    ensures { OnOk result (out.new.items ≡ out.old.items ++ piece_bytes piece.now) }
{
    match piece {
        Piece::Bytes(bytes) => out.extend_from_slice(bytes)?,
        Piece::Escaped(text) => text.escape_into(alloc, out, false)?,
        Piece::Made(bytes) => out.extend_from_slice(bytes)?,
    }
    Ok(())
}

// How many bytes a piece has.
fn piece_size(piece: &Piece<'_>) -> usize
    ensures { result ≡ min (length (piece_bytes piece.now)) largest_size }
{
    match piece {
        Piece::Bytes(bytes) => bytes.len(),
        Piece::Escaped(text) => escaped_size(text.units()),
        Piece::Made(bytes) => bytes.len(),
    }
}

// How many bytes units have, escaped.
fn escaped_size(units: &[u16]) -> usize
    ensures { result ≡ min (length (escaped false units.now)) largest_size }
{
    let mut size = 0usize;
    for unit in units {
        size = size.saturating_add(unit_size(*unit));
    }
    size
}

// A unit stands as it is, behind a `\`, or by its number.
fn unit_size(unit: u16) -> usize
    ensures { result ≡ length (escaped_unit false unit) }
{
    match unit {
        92 => 2,
        32..=126 => 1,
        _ => 6,
    }
}
