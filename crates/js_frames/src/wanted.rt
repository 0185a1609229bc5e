// What an object becomes a primitive value for.
use crate::{Aim, Reference};
use heap_values::{ObjectId, Value};
use js_evaluation::{Native, PatternNative};
use js_tree::{BinaryOp, Operand, Place, Suffix, UpdateForm, UpdateOp};
use utf16_text::{List, Text, TextList};

/// The methods of an object that are still to be asked for a primitive value (ECMA-262 5.1, section 8.12.8).
#[derive(Clone, Copy, Debug, PartialEq, Eq)]
pub enum Methods {
    /// `valueOf`, then `toString`: for a number.
    ForNumber,
    /// `toString`, then `valueOf`: for a text.
    ForText,
    ToString,
    ValueOf,
    None,
}

/// What comes after a binary operator.
#[derive(Drop)]
pub enum Operated<'p> {
    /// The operands that are left of its row.
    Row {
        rest: &'p [Operand],
    },
    /// The write of an assignment.
    Write {
        reference: Reference<'p>,
        place: Place,
    },
}

/// What a primitive value is wanted for, with what comes after that.
#[derive(Drop)]
pub enum Wanted<'p> {
    Plus {
        place: Place,
    },
    Minus {
        place: Place,
    },
    BitNot {
        place: Place,
    },
    Update {
        form: UpdateForm,
        op: UpdateOp,
        reference: Reference<'p>,
        place: Place,
    },
    /// The name of a property of this base, behind which suffixes are left.
    Index {
        aim: Aim,
        base: Value,
        place: Place,
        rest: &'p [Suffix],
    },
    /// The name of the property that a target refers to.
    Key {
        base: Value,
        place: Place,
    },
    /// The left side of `in`.
    In {
        object: ObjectId,
        place: Place,
        next: Operated<'p>,
    },
    /// The left side of an operator.
    Left {
        op: BinaryOp,
        right: Value,
        place: Place,
        next: Operated<'p>,
    },
    /// The right side of an operator, where the left one is a primitive value.
    Right {
        op: BinaryOp,
        left: Value,
        place: Place,
        next: Operated<'p>,
    },
    /// The name of an error that becomes a text.
    ErrorName {
        error: ObjectId,
        place: Place,
    },
    /// The message of an error that becomes a text, with its name.
    ErrorMessage {
        name: Text,
        place: Place,
    },
    /// A value that is handed to a native, behind those that are done; left: how many the native takes behind it.
    Handed {
        native: Native,
        left: usize,
        done: List<Value>,
        handed: List<Value>,
        place: Place,
    },
    /// Where a native begins to search for a pattern, with the values that it takes.
    Begin {
        native: PatternNative,
        values: List<Value>,
        place: Place,
    },
    /// An element of an array that becomes a text, of so many, behind the texts of those before; left: how many come
    /// behind it.
    Element {
        left: u32,
        count: u32,
        array: ObjectId,
        texts: TextList,
        separator: Text,
        place: Place,
    },
}
