// The sites of texts.
ghost use Rattle.std.specs.Prelude.{◌≡◌, ◌+◌, ◌++◌, OnOk, IfOk};
ghost use Rattle.std.specs.Option.{option_copied};
ghost use Rattle.js_tree.specs.Tree.{expressions_of};
ghost use Rattle.js_tree.specs.View.{operands_of};
ghost use Rattle.js_sites.specs.Sites as spec;

use crate::names::leading_name;
use crate::{Site, SiteList};
use js_tree::{BinaryOp, Expression, ExpressionNode, Operand, Place};
use std::alloc::Global;
use utf16_text::{Memory, Text};

/// Adds that an expression stands beside a value that begins with a name, where it is a text.
pub(crate) fn add_beside(
    alloc: Global,
    name: Option<&Text>,
    e: &Expression,
    found: &mut SiteList,
) -> Result<(), Memory>
    ensures { OnOk result (found.new ≡ found.old ++ spec.beside_sites (option_copied name.entry) e.now) }
{
    match &e.node {
        ExpressionNode::Text(text) => add_beside_text(alloc, e.place, name, text, found),
        _ => Ok(()),
    }
}

fn add_beside_text(
    alloc: Global,
    place: Place,
    name: Option<&Text>,
    text: &Text,
    found: &mut SiteList,
) -> Result<(), Memory>
    ensures { OnOk result (found.new ≡ found.old ++ spec.beside_by place (option_copied name.entry) text.now) }
{
    match name {
        None => Ok(()),
        Some(name) => {
            let name = name.copy(alloc)?;
            let text = text.copy(alloc)?;
            found.push(alloc, Site::Beside { place, name, text })
        }
    }
}

/// Adds that an expression is handed to a global function, where it is a text.
pub(crate) fn add_handed(
    alloc: Global,
    function: Option<&Text>,
    number: u32,
    e: &Expression,
    found: &mut SiteList,
) -> Result<(), Memory>
    ensures { OnOk result (found.new ≡ found.old ++ spec.handed_sites (option_copied function.entry) number e.now) }
{
    match &e.node {
        ExpressionNode::Text(text) => add_handed_text(
            alloc, e.place, function, number, text, found,
        ),
        _ => Ok(()),
    }
}

fn add_handed_text(
    alloc: Global,
    place: Place,
    function: Option<&Text>,
    number: u32,
    text: &Text,
    found: &mut SiteList,
) -> Result<(), Memory>
    ensures { OnOk result (found.new ≡ found.old ++ spec.handed_by place (option_copied function.entry) number text.now) }
{
    match function {
        None => Ok(()),
        Some(function) => {
            let function = function.copy(alloc)?;
            let text = text.copy(alloc)?;
            found.push(
                alloc,
                Site::Handed {
                    place,
                    function,
                    number,
                    text,
                },
            )
        }
    }
}

/// The same behind an operator, where that asks whether two values are equal.
pub(crate) fn add_compared(
    alloc: Global,
    op: BinaryOp,
    name: Option<&Text>,
    e: &Expression,
    found: &mut SiteList,
) -> Result<(), Memory>
    ensures { OnOk result (found.new ≡ found.old ++ spec.compared_sites op (option_copied name.entry) e.now) }
{
    if is_equality(op) {
        return add_beside(alloc, name, e, found);
    }
    Ok(())
}

fn is_equality(op: BinaryOp) -> bool
    ensures { result ≡ spec.is_equality op }
{
    matches!(
        op,
        BinaryOp::Equal | BinaryOp::NotEqual | BinaryOp::StrictEqual | BinaryOp::StrictNotEqual
    )
}

/// The name that the first of these operands begins with, where its operator asks whether two values are equal.
pub(crate) fn leading_operand(all: &[Operand]) -> Option<&Text>
    ensures { option_copied result ≡ spec.leading_operand (operands_of all.now) }
{
    match all {
        [] => None,
        [first, ..] => leading_compared(first),
    }
}

fn leading_compared(operand: &Operand) -> Option<&Text>
    ensures { option_copied result ≡ spec.leading_compared operand.now.op operand.now.value }
{
    if is_equality(operand.op) {
        return leading_name(&operand.value);
    }
    None
}

/// The name beside which the texts of a call stand: that of its first argument behind a global function, and else that
/// of the value whose method is called.
pub(crate) fn beside_in<'a>(
    function: Option<&'a Text>,
    leading: Option<&'a Text>,
    arguments: &'a [Expression],
) -> Option<&'a Text>
    ensures { option_copied result ≡ spec.beside_in (option_copied function.entry) (option_copied leading.entry) (expressions_of arguments.now) }
{
    match function {
        None => leading,
        Some(_) => leading_argument(arguments),
    }
}

fn leading_argument(arguments: &[Expression]) -> Option<&Text>
    ensures { option_copied result ≡ spec.leading_argument (expressions_of arguments.now) }
{
    match arguments {
        [] => None,
        [first, ..] => leading_name(first),
    }
}

/// The next number. Memory comes for more arguments than 32 bits can count.
pub(crate) fn next(number: u32) -> Result<u32, Memory>
    ensures { IfOk result (λ n. n ≡ number + 1) }
{
    number.checked_add(1).ok_or(Memory)
}
