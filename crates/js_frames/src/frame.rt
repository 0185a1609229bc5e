// What is open.
ghost use Rattle.std.specs.Prelude.{◌≡◌};
ghost use Rattle.js_frames.specs.Unwinding.{is_break, is_return, is_throw, kind_of, takes, turns};

use crate::{
    ExpressionFrame, LoopFrame, Methods, StatementFrame, SuffixFrame, TargetFrame, Wanted,
};
use heap_values::{ObjectId, ScopeId, Value};
use js_evaluation::Thrown;
use js_tree::{Place, Statement};
use run_trees::Abrupt;

/// Where code runs: the innermost scope around it, and its `this` (ECMA-262 5.1, section 10.3).
#[derive(Drop)]
pub struct Context {
    pub scope: ScopeId,
    pub this: Value,
}

/// A part that has begun and not ended, and where its code runs.
#[derive(Drop)]
pub struct Open<'p> {
    pub context: Context,
    pub frame: Frame<'p>,
}

/// What is left of an open part, and the values that it has.
#[derive(Drop)]
pub enum Frame<'p> {
    /// The last part within is being done, and its end is that of the part around.
    Hold,
    Expression(ExpressionFrame<'p>),
    Suffix(SuffixFrame<'p>),
    Target(TargetFrame<'p>),
    Statement(StatementFrame<'p>),
    Loop(LoopFrame<'p>),
    Entry(EntryFrame<'p>),
    /// A method of an object is called, which may give a primitive value (ECMA-262 5.1, section 8.12.8).
    Primitive {
        object: ObjectId,
        methods: Methods,
        place: Place,
        wanted: Wanted<'p>,
    },
}

/// What is left of a call of a function of the script.
#[derive(Drop)]
pub enum EntryFrame<'p> {
    /// A statement of its body.
    Body {
        rest: &'p [Statement],
    },
    /// A statement of the body of a function that constructs this object.
    Construct {
        made: ObjectId,
        rest: &'p [Statement],
    },
}

/// The kinds of abrupt end (ECMA-262 5.1, section 8.9).
#[derive(Clone, Copy, Debug, PartialEq, Eq)]
pub enum EndKind {
    Throw,
    Return,
    Break,
    Continue,
}

impl EndKind {
    /// The kind of an abrupt end.
    pub fn of(end: &Abrupt<Thrown, Value, ()>) -> EndKind
        ensures { result ≡ kind_of end.now }
    {
        match end {
            Abrupt::Thrown(_) => EndKind::Throw,
            Abrupt::Returned(_) => EndKind::Return,
            Abrupt::Broken(_) => EndKind::Break,
            Abrupt::Continued(_) => EndKind::Continue,
        }
    }

    pub fn is_throw(self) -> bool
        ensures { result ≡ is_throw self }
    {
        matches!(self, EndKind::Throw)
    }

    pub fn is_return(self) -> bool
        ensures { result ≡ is_return self }
    {
        matches!(self, EndKind::Return)
    }

    pub fn is_break(self) -> bool
        ensures { result ≡ is_break self }
    {
        matches!(self, EndKind::Break)
    }

    /// Whether it goes to a loop.
    pub fn turns(self) -> bool
        ensures { result ≡ turns self }
    {
        matches!(self, EndKind::Break | EndKind::Continue)
    }
}

impl<'p> Frame<'p> {
    /// Whether an end of this kind goes no further than this part.
    pub fn takes(&self, end: EndKind) -> bool
        ensures { result ≡ takes self.now end }
    {
        match self {
            Frame::Statement(frame) => frame.takes(end),
            Frame::Loop(frame) => frame.takes(end),
            Frame::Entry(_) => end.is_return(),
            _ => false,
        }
    }
}
