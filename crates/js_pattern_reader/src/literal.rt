// Pattern literals.
ghost use Rattle.std.specs.Prelude.{◌≡◌, IfErr, IfOk, IsOk, Ok, OnOk};
ghost use Rattle.js_pattern_reader.specs.Answers.{Fails};
ghost use Rattle.js_pattern_reader.specs.Reading.{pattern_of};
ghost use Rattle.js_pattern_reader.specs.Literal as spec;

use crate::{PatternAnswer, read_pattern};
use js_pattern::Pattern;
use std::alloc::Global;
use std::marker::Model;
use std::rc::Rc;
use utf16_text::{Memory, Text};

/// The body and the flags of a pattern literal as texts, with the pattern that they are read as (ECMA-262 5.1, section
/// 7.8.5). It is read once: a copy shares the pattern with its source.
#[derive(Drop)]
pub struct PatternLiteral {
    read: Rc<ReadLiteral>,
}

#[derive(Drop)]
struct ReadLiteral {
    body: Text,
    flags: Text,
    pattern: Pattern,
}

impl Model for PatternLiteral {
    ghost use Rattle.std.specs.Prelude.{◌≡◌, Ok};
    ghost use Rattle.js_pattern_reader.specs.Literal.{Literal, literal_code};
    ghost use Rattle.js_pattern_reader.specs.Reading.{pattern_of};

    ghost Value = { Literal };

    ghost coded = { literal_code };

    ghost view = { λ l. record { body = l.read.value.body; flags = l.read.value.flags } };

    ghost invariant = { λ l. pattern_of l.read.value.body l.read.value.flags ≡ Ok l.read.value.pattern };
}

impl PatternLiteral {
    /// The literal of a body and flags, or why they are no pattern.
    pub fn read(alloc: Global, body: Text, flags: Text) -> Result<PatternLiteral, PatternAnswer>
        ensures ok { IfOk result (λ l. l ≡ record { body = body; flags = flags }) }
        ensures read { OnOk result (IsOk (pattern_of body flags)) }
        ensures err { IfErr result (λ e. Fails e (pattern_of body flags)) }
    {
        let pattern = read_pattern(alloc, &body, &flags)?;
        let read = ReadLiteral {
            body,
            flags,
            pattern,
        };
        match Rc::new(alloc, read) {
            Ok(read) => Ok(PatternLiteral { read }),
            Err(_) => Err(PatternAnswer::Memory),
        }
    }

    /// The units between its slashes.
    pub fn body(&self) -> &Text
        ensures { result.now ≡ self.now.body }
    {
        &self.read.body
    }

    /// The units behind its second slash.
    pub fn flags(&self) -> &Text
        ensures { result.now ≡ self.now.flags }
    {
        &self.read.flags
    }

    /// Whether a search goes over all of a text (`g`).
    pub fn is_global(&self) -> bool
        ensures { result ≡ spec.is_global self.now }
    {
        has_flag(&self.read.flags, 103)
    }

    /// Whether ASCII letters are compared without case (`i`).
    pub fn ignores_case(&self) -> bool
        ensures { result ≡ spec.ignores_case self.now }
    {
        has_flag(&self.read.flags, 105)
    }

    /// Whether `^` and `$` stand at line terminators (`m`).
    pub fn is_multiline(&self) -> bool
        ensures { result ≡ spec.is_multiline self.now }
    {
        has_flag(&self.read.flags, 109)
    }

    /// The pattern that it is read as.
    pub fn pattern(&self) -> &Pattern
        ensures { pattern_of self.now.body self.now.flags ≡ Ok result.now }
    {
        &self.read.pattern
    }

    /// The same literal. It shares its pattern with the copy.
    pub fn copy(&self) -> Result<PatternLiteral, Memory>
        ensures { IfOk result (λ l. l ≡ self.now) }
    {
        let read = self.read.clone()?;
        Ok(PatternLiteral { read })
    }
}

fn has_flag(flags: &Text, flag: u16) -> bool
    ensures { result ≡ spec.has_flag flag flags.now }
{
    flags.units().contains(&flag)
}
