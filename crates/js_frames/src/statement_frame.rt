// Statements that are open.
ghost use Rattle.std.specs.Prelude.{◌≡◌};
ghost use Rattle.js_frames.specs.Unwinding.{loop_takes, statement_takes};

use crate::{EndKind, NamesLeft};
use heap_values::Value;
use js_evaluation::Thrown;
use js_tree::{
    BoundName, Branch, Catch, Clause, Declared, Expression, ForTarget, Place, Statement,
};
use run_trees::Abrupt;
use utf16_text::Text;

/// What is left of a statement, by the part that is being done. Each place is that of the statement.
#[derive(Drop)]
pub enum StatementFrame<'p> {
    /// A statement of a block or of a script.
    Statements {
        rest: &'p [Statement],
    },
    /// The expression of a statement that is nothing else.
    Evaluate,
    /// The first value of a name.
    Var {
        name: &'p BoundName,
        place: Place,
        rest: &'p [Declared],
    },
    /// The condition of a branch.
    Branch {
        body: &'p Statement,
        rest: &'p [Branch],
        last: &'p Option<Box<Statement>>,
    },
    Return,
    Throw {
        place: Place,
    },
    /// What the clauses of a `switch` are compared with.
    SwitchValue {
        clauses: &'p [Clause],
    },
    /// The test of a clause, with the value that it is compared with and all clauses.
    SwitchTest {
        value: Value,
        all: &'p [Clause],
        body: &'p [Statement],
        rest: &'p [Clause],
    },
    /// A statement of a clause.
    SwitchBody {
        body: &'p [Statement],
        rest: &'p [Clause],
    },
    /// The block of a `try`.
    TryBlock {
        place: Place,
        handler: &'p Option<Box<Catch>>,
        last: &'p Option<Box<Statement>>,
    },
    /// The block of a `catch`.
    Handler {
        last: &'p Option<Box<Statement>>,
    },
    /// The block of a `finally`, with the end that stands before it.
    Last {
        end: Result<Value, Abrupt<Thrown, Value, ()>>,
    },
}

/// A `while` or a `do` loop, which has its place in a fault.
#[derive(Clone, Copy)]
pub struct WhileLoop<'p> {
    pub condition: &'p Expression,
    pub body: &'p Statement,
    pub place: Place,
}

/// A `for` loop behind its start.
#[derive(Clone, Copy)]
pub struct ForLoop<'p> {
    pub condition: &'p Option<Box<Expression>>,
    pub step: &'p Option<Box<Expression>>,
    pub body: &'p Statement,
    pub place: Place,
}

/// A `for`-`in` loop.
#[derive(Clone, Copy)]
pub struct ForInLoop<'p> {
    pub target: &'p ForTarget,
    pub body: &'p Statement,
    pub place: Place,
}

/// What is left of a loop. So many turns may still follow; no loop comes to the end of them, since each costs fuel.
#[derive(Drop)]
pub enum LoopFrame<'p> {
    WhileCondition {
        turns: u64,
        looped: WhileLoop<'p>,
    },
    WhileBody {
        turns: u64,
        looped: WhileLoop<'p>,
    },
    DoBody {
        turns: u64,
        looped: WhileLoop<'p>,
    },
    DoCondition {
        turns: u64,
        looped: WhileLoop<'p>,
    },
    ForStart {
        looped: ForLoop<'p>,
    },
    ForCondition {
        turns: u64,
        looped: ForLoop<'p>,
    },
    ForBody {
        turns: u64,
        looped: ForLoop<'p>,
    },
    ForStep {
        turns: u64,
        looped: ForLoop<'p>,
    },
    /// The first value of the declared name.
    ForInFirst {
        name: &'p BoundName,
        object: &'p Expression,
        looped: ForInLoop<'p>,
    },
    /// The object whose names are listed.
    ForInObject {
        looped: ForInLoop<'p>,
    },
    /// What the target refers to, to which a name is written, with the names that are left.
    ForInTarget {
        name: Text,
        object: Value,
        names: NamesLeft,
        looped: ForInLoop<'p>,
    },
    ForInBody {
        object: Value,
        names: NamesLeft,
        looped: ForInLoop<'p>,
    },
}

impl<'p> StatementFrame<'p> {
    /// Whether an end of this kind goes no further than this part.
    pub fn takes(&self, end: EndKind) -> bool
        ensures { result ≡ statement_takes self.now end }
    {
        match self {
            StatementFrame::SwitchTest { .. } => end.is_break(),
            StatementFrame::SwitchBody { .. } => end.is_break(),
            StatementFrame::TryBlock { handler, last, .. } => {
                last.is_some() || (handler.is_some() && end.is_throw())
            }
            StatementFrame::Handler { last } => last.is_some(),
            _ => false,
        }
    }
}

impl<'p> LoopFrame<'p> {
    /// Whether an end of this kind goes no further than this part.
    pub fn takes(&self, end: EndKind) -> bool
        ensures { result ≡ loop_takes self.now end }
    {
        match self {
            LoopFrame::WhileBody { .. } => end.turns(),
            LoopFrame::DoBody { .. } => end.turns(),
            LoopFrame::ForBody { .. } => end.turns(),
            LoopFrame::ForInBody { .. } => end.turns(),
            _ => false,
        }
    }
}
