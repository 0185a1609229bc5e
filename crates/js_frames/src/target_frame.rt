// Expressions that wait for what one within them refers to.
use crate::Aim;
use js_tree::{AssignOp, Expression, Place, Suffix, UpdateForm, UpdateOp};

/// What is left of an expression, where one within it is evaluated up to what it refers to (ECMA-262 5.1, section 8.7).
/// Each place is that of the expression.
#[derive(Drop)]
pub enum TargetFrame<'p> {
    /// A property that suffixes are applied to: its base is the `this` of a call.
    First {
        aim: Aim,
        suffixes: &'p [Suffix],
    },
    /// The target of `++` or `--`.
    Update {
        form: UpdateForm,
        op: UpdateOp,
        place: Place,
    },
    /// What is deleted.
    Delete {
        place: Place,
    },
    /// The name of which `typeof` asks.
    TypeOf,
    /// The target of an assignment, with the expression whose value it gets.
    Assign {
        op: AssignOp,
        value: &'p Expression,
        place: Place,
    },
}
