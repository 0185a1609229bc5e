// Whole patterns.
ghost use Rattle.js_pattern_reader.specs.Answers.{Gives};
ghost use Rattle.js_pattern_reader.specs.Laws.{BodiesAreNumbered};
ghost use Rattle.js_pattern_reader.specs.Reading.{pattern_of};

use crate::PatternAnswer;
use crate::body::read_body;
use crate::flags::read_flags;
use js_pattern::Pattern;
use std::alloc::Global;
use utf16_text::Text;

/// The pattern of a body and flags (ECMA-262 5.1, section 15.10.4.1), or the first refusal: one of the body before one
/// of the flags.
pub fn read_pattern(alloc: Global, body: &Text, flags: &Text) -> Result<Pattern, PatternAnswer>
    ensures { Gives (λ p. p) result (pattern_of body.now flags.now) }
{
    let body = read_body(alloc, body)?;
    let flags = read_flags(flags)?;
    Ok(Pattern::new(body.root, body.groups, flags))
}

/// The groups of every body that is read are counted and numbered in order, and each Repeat names those of its body.
pub fn bodies_are_numbered()
    ensures { BodiesAreNumbered }
{}
