// Expressions that are open.
use crate::Reference;
use heap_values::{ObjectId, Value};
use js_tree::{BinaryOp, Expression, Operand, Place, Property, Suffix};
use utf16_text::{List, Text};

/// What suffixes are applied for.
#[derive(Clone, Copy, Debug, PartialEq, Eq)]
pub enum Aim {
    /// The value that the last one gives.
    Value,
    /// What the last one refers to, which is to be written.
    Target,
}

/// What is left of an expression, by the part that is being evaluated. Each place is that of the expression.
#[derive(Drop)]
pub enum ExpressionFrame<'p> {
    /// An item of an array in which so many stand.
    Item {
        array: ObjectId,
        count: u32,
        rest: &'p [Option<Expression>],
        place: Place,
    },
    /// A property of an object.
    Property {
        object: ObjectId,
        name: &'p Text,
        rest: &'p [Property],
        place: Place,
    },
    /// The callee of `new`.
    Callee {
        left: &'p [Expression],
        place: Place,
    },
    /// An argument of `new`, behind those that are done.
    NewArgument {
        callee: Value,
        done: List<Value>,
        left: &'p [Expression],
        place: Place,
    },
    /// What is no target, and so is there no longer.
    DeleteValue,
    Void,
    TypeOf,
    Plus {
        place: Place,
    },
    Minus {
        place: Place,
    },
    BitNot {
        place: Place,
    },
    Not,
    /// The first operand of a row, or one behind `&&` or `||`.
    Row {
        rest: &'p [Operand],
    },
    /// An operand behind any other operator, with the value before it and the operator's place.
    Operand {
        op: BinaryOp,
        left: Value,
        place: Place,
        rest: &'p [Operand],
    },
    /// The condition of `?:`.
    Conditional {
        held: &'p Expression,
        otherwise: &'p Expression,
    },
    /// The value of `=`.
    AssignValue {
        reference: Reference<'p>,
        place: Place,
    },
    /// The value of an assignment with an operator, with the value that the target had.
    AssignOperand {
        op: BinaryOp,
        old: Value,
        reference: Reference<'p>,
        place: Place,
    },
    Comma {
        rest: &'p [Expression],
    },
}

/// A call whose arguments are being evaluated: what is called, with which `this`, and the suffixes behind the call. The
/// place is that of the suffix.
#[derive(Drop)]
pub struct OpenCall<'p> {
    pub aim: Aim,
    pub this: Value,
    pub callee: Value,
    pub place: Place,
    pub rest: &'p [Suffix],
}

/// What is left of an expression with suffixes. Each place is that of the suffix.
#[derive(Drop)]
pub enum SuffixFrame<'p> {
    /// What the first suffix is applied to, where it is no reference to a property.
    First {
        aim: Aim,
        suffixes: &'p [Suffix],
    },
    /// An index of a base.
    Index {
        aim: Aim,
        base: Value,
        place: Place,
        rest: &'p [Suffix],
    },
    /// The index of the last suffix of a target.
    Key {
        base: Value,
        place: Place,
    },
    /// An argument of a call, behind those that are done.
    Argument {
        call: OpenCall<'p>,
        done: List<Value>,
        left: &'p [Expression],
    },
    /// A call.
    Called {
        aim: Aim,
        rest: &'p [Suffix],
    },
}
