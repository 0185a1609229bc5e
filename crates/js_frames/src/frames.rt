// The stack of open parts.
ghost use Rattle.std.specs.Prelude.{
  ◌≡◌,
  ◌-◌,
  ◌<◌,
  ◌≤◌,
  ◌∷◌,
  [],
  length,
  IfNone,
  IfOk,
  IfSome,
  IsNone,
  IsTrue,
  MatchOption,
  OnSome,
  Some,
  slice_get,
  ◌↔◌,
};
ghost use Rattle.js_frames.specs.RestOf.{room};
ghost use Rattle.js_frames.specs.Unwinding.{unwound};
ghost use Rattle.js_evaluation.specs.declared.limits.TheConstants.{MOST_OPEN};

use crate::{EndKind, Open};
use js_evaluation::MOST_OPEN;
use std::alloc::Global;
use std::marker::Model;
use utf16_text::Memory;

/// The parts that are open, at most 2,000, which contracts see as a list, the innermost first.
#[derive(Drop)]
pub struct Frames<'p> {
    // the innermost stands at the end
    parts: Vec<Open<'p>>,
}

impl<'p> Model for Frames<'p> {
    ghost use Rattle.std.specs.Prelude.{List, reverse, ◌≤◌, vec_capacity};
    ghost use Rattle.std.specs.Coded.{codes};
    ghost use Rattle.js_tree.specs.contracts.expression.Expression as expression;
    ghost use Rattle.js_tree.specs.contracts.expression.Property as property;
    ghost use Rattle.js_tree.specs.contracts.expression.Suffix as suffix;
    ghost use Rattle.js_tree.specs.contracts.expression.Operand as operand;
    ghost use Rattle.js_tree.specs.contracts.statement.Statement as statement;
    ghost use Rattle.js_tree.specs.contracts.statement.Declared as declared;
    ghost use Rattle.js_tree.specs.contracts.statement.Branch as branch;
    ghost use Rattle.js_tree.specs.contracts.statement.Clause as clause;
    ghost use Rattle.js_tree.specs.contracts.statement.Catch as handler;
    ghost use Rattle.js_tree.specs.contracts.statement.ForTarget as target;
    ghost use Rattle.js_evaluation.specs.declared.limits.TheConstants.{MOST_OPEN};
    ghost use Rattle.js_frames.specs.declared.frame.Open.{Open};

    ghost Value = { List Open };

    ghost view = { λ frames. reverse frames.parts.items };

    ghost coded = { Prim.hlevel (
      codes,
      expression.the_row.coded,
      property.the_row.coded,
      suffix.the_row.coded,
      operand.the_row.coded,
      statement.the_row.coded,
      declared.the_row.coded,
      branch.the_row.coded,
      clause.the_row.coded,
      handler.the_row.coded,
      target.the_row.coded,
    ) };

    ghost invariant = { λ frames. MOST_OPEN ≤ vec_capacity frames.parts };
}

impl<'p> Frames<'p> {
    /// No part. It takes the room for 2,000, so no other call takes memory.
    pub fn new(alloc: Global) -> Result<Frames<'p>, Memory>
        ensures { IfOk result (λ frames. frames ≡ []) }
    {
        match Vec::with_capacity(alloc, MOST_OPEN) {
            Ok(parts) => Ok(Frames { parts }),
            Err(_) => Err(Memory),
        }
    }

    /// How many parts are open.
    pub fn len(&self) -> usize
        ensures { result ≡ length self.now }
    {
        self.parts.len()
    }

    /// Whether 2,000 parts are open.
    pub fn is_full(&self) -> bool
        ensures { IsTrue result ↔ (room self.now ≡ 0) }
    {
        self.len() >= MOST_OPEN
    }

    /// Whether no part may be opened within one more.
    pub fn is_full_within(&self) -> bool
        ensures { IsTrue result ↔ (room self.now - 1 ≡ 0) }
    {
        self.len() >= MOST_OPEN - 1
    }

    /// Opens a part. It is given back exactly where 2,000 are open.
    pub fn push(&mut self, part: Open<'p>) -> Option<Open<'p>>
        ensures given_back { IfSome result (λ back. back ≡ part.entry) }
        ensures full { OnSome result (MOST_OPEN ≤ length self.old) }
        ensures unchanged { OnSome result (self.new ≡ self.old) }
        ensures free { IfNone result (length self.old < MOST_OPEN) }
        ensures opened { IfNone result (self.new ≡ part.entry ∷ self.old) }
    {
        if self.len() >= MOST_OPEN {
            return Some(part);
        }
        self.parts.push_reserved(part);
        None
    }

    /// Closes the innermost part. None exactly where none is open.
    pub fn pop(&mut self) -> Option<Open<'p>>
        ensures closed { MatchOption result (self.old ≡ []) (λ part. self.old ≡ part ∷ self.new) }
        ensures none_left { IfNone result (self.new ≡ []) }
    {
        self.parts.pop()
    }

    /// The innermost part. None exactly where none is open.
    pub fn top(&self) -> Option<&Open<'p>>
        ensures none { IsNone result ↔ (self.now ≡ []) }
        ensures some { IfSome result (λ part. slice_get self.now 0 ≡ Some part.now) }
    {
        self.parts.last()
    }

    /// Closes the parts that an end of this kind passes, and the first that takes it, which is given. Where it is None
    /// no part takes it, and then none is open.
    pub fn unwind(&mut self, end: EndKind) -> Option<Open<'p>>
        ensures taken { MatchOption result (unwound end self.old ≡ []) (λ part. unwound end self.old ≡ part ∷ self.new) }
        ensures none_left { IfNone result (self.new ≡ []) }
    {
        while let Some(part) = self.pop() {
            if part.frame.takes(end) {
                return Some(part);
            }
        }
        None
    }
}
