// The sites of expressions.
ghost use Rattle.std.specs.Prelude.{◌≡◌, ◌++◌, OnOk, IfOk};
ghost use Rattle.std.specs.Option.{option_copied};
ghost use Rattle.js_tree.specs.Tree.{optional_of, expressions_of, items_of};
ghost use Rattle.js_tree.specs.View.{properties_of, suffix_of, suffixes_of, operands_of, optional_box};
ghost use Rattle.js_sites.specs.Sites as spec;

use crate::names::{add_constructed, add_named, global_name, leading_name};
use crate::texts::{add_beside, add_compared, add_handed, beside_in, leading_operand, next};
use crate::writes::{add_made_name, add_written};
use crate::{Site, SiteList};
use js_tree::{
    Expression, ExpressionNode, FunctionPart, Operand, Place, Property, Suffix, SuffixNode,
};
use std::alloc::Global;
use utf16_text::{Memory, Text};

/// Adds the sites of an expression.
#[cycle(expressions)]
pub(crate) fn add_expression(
    alloc: Global,
    e: &Expression,
    found: &mut SiteList,
) -> Result<(), Memory>
    ensures { OnOk result (found.new ≡ found.old ++ spec.expression_sites e.now) }
{
    match &e.node {
        ExpressionNode::Number(_) => Ok(()),
        ExpressionNode::Text(_) => Ok(()),
        ExpressionNode::Pattern(_) => Ok(()),
        ExpressionNode::True => Ok(()),
        ExpressionNode::False => Ok(()),
        ExpressionNode::Null => Ok(()),
        ExpressionNode::This => Ok(()),
        ExpressionNode::Name(x) => add_named(alloc, e.place, x, found),
        ExpressionNode::Array(all) => add_items(alloc, all.as_slice(), found),
        ExpressionNode::Object(all) => add_properties(alloc, all.as_slice(), found),
        ExpressionNode::Function(FunctionPart::Whole(_)) => Ok(()),
        ExpressionNode::Function(FunctionPart::Numbered(n)) => {
            add_function(alloc, e.place, *n, found)
        }
        ExpressionNode::Suffixed(first, all) => {
            add_expression(alloc, first, found)?;
            add_suffixes(
                alloc,
                global_name(first),
                leading_name(first),
                all.as_slice(),
                found,
            )
        }
        ExpressionNode::New(callee, all) => {
            add_constructed(alloc, callee, found)?;
            add_expression(alloc, callee, found)?;
            add_row(alloc, None, None, all.as_slice(), found)
        }
        ExpressionNode::Update(_, _, target) => add_expression(alloc, target, found),
        ExpressionNode::Unary(_, operand) => add_expression(alloc, operand, found),
        ExpressionNode::Chain(first, all) => {
            add_beside(alloc, leading_operand(all.as_slice()), first, found)?;
            add_expression(alloc, first, found)?;
            add_operands(alloc, leading_name(first), all.as_slice(), found)
        }
        ExpressionNode::Conditional(condition, a, b) => {
            add_expression(alloc, condition, found)?;
            add_expression(alloc, a, found)?;
            add_expression(alloc, b, found)
        }
        ExpressionNode::Assign(target, op, value) => {
            add_written(alloc, *op, target, found)?;
            add_expression(alloc, target, found)?;
            add_expression(alloc, value, found)
        }
        ExpressionNode::Comma(all) => add_row(alloc, None, None, all.as_slice(), found),
    }
}

fn add_function(
    alloc: Global,
    place: Place,
    number: u32,
    found: &mut SiteList,
) -> Result<(), Memory>
    ensures { OnOk result (found.new ≡ found.old ++ spec.function_site place number) }
{
    found.push(
        alloc,
        Site::Function {
            place,
            name: None,
            number,
        },
    )
}

#[cycle(expressions)]
pub(crate) fn add_optional(
    alloc: Global,
    o: &Option<Expression>,
    found: &mut SiteList,
) -> Result<(), Memory>
    ensures { OnOk result (found.new ≡ found.old ++ spec.optional_sites (optional_of o.now)) }
{
    match o {
        None => Ok(()),
        Some(e) => add_expression(alloc, e, found),
    }
}

pub(crate) fn add_boxed(
    alloc: Global,
    o: &Option<Box<Expression>>,
    found: &mut SiteList,
) -> Result<(), Memory>
    ensures { OnOk result (found.new ≡ found.old ++ spec.optional_sites (optional_box o.now)) }
{
    match o {
        None => Ok(()),
        Some(e) => add_expression(alloc, e, found),
    }
}

/// The sites of expressions in a row, whose texts are handed to a function and stand beside a name, where these are
/// there.
#[cycle(expressions)]
fn add_row(
    alloc: Global,
    function: Option<&Text>,
    beside: Option<&Text>,
    all: &[Expression],
    found: &mut SiteList,
) -> Result<(), Memory>
    ensures { OnOk result (found.new ≡ found.old ++ spec.row_sites (option_copied function.entry) (option_copied beside.entry) 0 (expressions_of all.now)) }
{
    let mut left = all;
    let mut number = 0;
    while let [one, rest @ ..] = left {
        add_handed(alloc, function, number, one, found)?;
        add_beside(alloc, beside, one, found)?;
        add_expression(alloc, one, found)?;
        number = next(number)?;
        left = rest;
    }
    Ok(())
}

#[cycle(expressions)]
fn add_items(alloc: Global, all: &[Option<Expression>], found: &mut SiteList) -> Result<(), Memory>
    ensures { OnOk result (found.new ≡ found.old ++ spec.items_sites (items_of all.now)) }
{
    let mut left = all;
    while let [one, rest @ ..] = left {
        add_optional(alloc, one, found)?;
        left = rest;
    }
    Ok(())
}

#[cycle(expressions)]
fn add_properties(alloc: Global, all: &[Property], found: &mut SiteList) -> Result<(), Memory>
    ensures { OnOk result (found.new ≡ found.old ++ spec.properties_sites (properties_of all.now)) }
{
    let mut left = all;
    while let [one, rest @ ..] = left {
        add_made_name(alloc, &one.name, found)?;
        add_expression(alloc, &one.value, found)?;
        left = rest;
    }
    Ok(())
}

/// The sites of a suffix. The object is the global name right before it, and `leading` the name that the value before
/// it begins with, where there are such.
#[cycle(expressions)]
fn add_suffix(
    alloc: Global,
    object: Option<&Text>,
    leading: Option<&Text>,
    one: &Suffix,
    found: &mut SiteList,
) -> Result<(), Memory>
    ensures { OnOk result (found.new ≡ found.old ++ spec.suffix_sites (option_copied object.entry) (option_copied leading.entry) (suffix_of one.now.place one.now.node)) }
{
    match &one.node {
        SuffixNode::Member(name) => add_member(alloc, one.place, object, name, found),
        SuffixNode::Index(e) => add_expression(alloc, e, found),
        SuffixNode::Call(all) => {
            let beside = beside_in(object, leading, all.as_slice());
            add_row(alloc, object, beside, all.as_slice(), found)
        }
    }
}

fn add_member(
    alloc: Global,
    place: Place,
    object: Option<&Text>,
    name: &Text,
    found: &mut SiteList,
) -> Result<(), Memory>
    ensures { OnOk result (found.new ≡ found.old ++ spec.member_site place (option_copied object.entry) name.now) }
{
    let object = copied(alloc, object)?;
    let name = name.copy(alloc)?;
    found.push(
        alloc,
        Site::Member {
            place,
            object,
            name,
        },
    )
}

fn copied(alloc: Global, name: Option<&Text>) -> Result<Option<Text>, Memory>
    ensures { IfOk result (λ copy. copy ≡ option_copied name.entry) }
{
    match name {
        None => Ok(None),
        Some(name) => Ok(Some(name.copy(alloc)?)),
    }
}

#[cycle(expressions)]
fn add_suffixes(
    alloc: Global,
    object: Option<&Text>,
    leading: Option<&Text>,
    all: &[Suffix],
    found: &mut SiteList,
) -> Result<(), Memory>
    ensures { OnOk result (found.new ≡ found.old ++ spec.suffixes_sites (option_copied object.entry) (option_copied leading.entry) (suffixes_of all.now)) }
{
    let mut object = object;
    let mut left = all;
    while let [one, rest @ ..] = left {
        add_suffix(alloc, object, leading, one, found)?;
        object = None;
        left = rest;
    }
    Ok(())
}

/// The sites of operands, whose texts stand beside a name, where it is there.
#[cycle(expressions)]
fn add_operands(
    alloc: Global,
    beside: Option<&Text>,
    all: &[Operand],
    found: &mut SiteList,
) -> Result<(), Memory>
    ensures { OnOk result (found.new ≡ found.old ++ spec.operands_sites (option_copied beside.entry) (operands_of all.now)) }
{
    let mut left = all;
    while let [one, rest @ ..] = left {
        add_compared(alloc, one.op, beside, &one.value, found)?;
        add_expression(alloc, &one.value, found)?;
        left = rest;
    }
    Ok(())
}
