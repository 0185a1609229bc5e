// A pattern literal that a heap keeps.
ghost use Rattle.std.specs.Prelude.{◌≡◌};

use js_pattern_reader::PatternLiteral;
use shared_list::Copied;
use std::alloc::Global;
use std::marker::Model;
use utf16_text::Memory;

/// A literal of a pattern, seen as what it is read of.
#[derive(Drop)]
pub(crate) struct KeptLiteral {
    literal: PatternLiteral,
}

impl Model for KeptLiteral {
    ghost use Rattle.js_pattern_reader.specs.Literal.{Literal, literal_code};

    ghost Value = { Literal };

    ghost coded = { literal_code };

    ghost view = { λ k. k.literal };
}

impl KeptLiteral {
    pub(crate) fn new(literal: PatternLiteral) -> KeptLiteral
        ensures { result ≡ literal }
    {
        KeptLiteral { literal }
    }

    pub(crate) fn literal(&self) -> &PatternLiteral
        ensures { result.now ≡ self.now }
    {
        &self.literal
    }
}

impl Copied for KeptLiteral {
    fn copied(&self, _alloc: Global) -> Result<KeptLiteral, Memory> {
        let literal = self.literal.copy()?;
        Ok(KeptLiteral { literal })
    }
}
