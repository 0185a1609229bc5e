// The sites of names.
ghost use Rattle.std.specs.Prelude.{◌≡◌, ◌++◌, OnOk};
ghost use Rattle.std.specs.Option.{option_copied};
ghost use Rattle.js_sites.specs.Sites as spec;

use crate::{Site, SiteList};
use js_tree::{Bound, BoundName, Expression, ExpressionNode, Place};
use std::alloc::Global;
use utf16_text::{Memory, Text};

/// The name, where it is a global one.
pub(crate) fn global_in(x: &BoundName) -> Option<&Text>
    ensures { option_copied result ≡ spec.global_by x.now.bound x.now.name }
{
    match x.bound {
        Bound::Global => Some(&x.name),
        Bound::Unbound => None,
        Bound::Slot { up: _, slot: _ } => None,
        Bound::Own { up: _ } => None,
    }
}

/// The global name that an expression is.
pub(crate) fn global_name(e: &Expression) -> Option<&Text>
    ensures { option_copied result ≡ spec.global_name e.now }
{
    match &e.node {
        ExpressionNode::Name(x) => global_in(x),
        _ => None,
    }
}

/// The name that an expression is, whatever its scope.
fn own_name(e: &Expression) -> Option<&Text>
    ensures { option_copied result ≡ spec.own_name e.now }
{
    match &e.node {
        ExpressionNode::Name(x) => Some(&x.name),
        _ => None,
    }
}

/// The name that an expression begins with.
pub(crate) fn leading_name(e: &Expression) -> Option<&Text>
    ensures { option_copied result ≡ spec.leading_name e.now }
{
    match &e.node {
        ExpressionNode::Name(x) => Some(&x.name),
        ExpressionNode::Suffixed(first, _) => own_name(first),
        _ => None,
    }
}

/// Adds that a name stands there, where it is a global one.
pub(crate) fn add_named(
    alloc: Global,
    place: Place,
    x: &BoundName,
    found: &mut SiteList,
) -> Result<(), Memory>
    ensures { OnOk result (found.new ≡ found.old ++ spec.named_by place (spec.global_by x.now.bound x.now.name)) }
{
    match global_in(x) {
        None => Ok(()),
        Some(name) => {
            let name = name.copy(alloc)?;
            found.push(alloc, Site::Named { place, name })
        }
    }
}

/// Adds that a name is written, where it is a global one.
pub(crate) fn add_written_name(
    alloc: Global,
    x: &BoundName,
    found: &mut SiteList,
) -> Result<(), Memory>
    ensures { OnOk result (found.new ≡ found.old ++ spec.written_by (spec.global_by x.now.bound x.now.name)) }
{
    match global_in(x) {
        None => Ok(()),
        Some(name) => {
            let name = name.copy(alloc)?;
            found.push(alloc, Site::Written { name })
        }
    }
}

/// Adds that `new` stands before an expression, where that is a global name.
pub(crate) fn add_constructed(
    alloc: Global,
    callee: &Expression,
    found: &mut SiteList,
) -> Result<(), Memory>
    ensures { OnOk result (found.new ≡ found.old ++ spec.constructed_sites callee.now) }
{
    match &callee.node {
        ExpressionNode::Name(x) => add_constructed_name(alloc, callee.place, x, found),
        _ => Ok(()),
    }
}

fn add_constructed_name(
    alloc: Global,
    place: Place,
    x: &BoundName,
    found: &mut SiteList,
) -> Result<(), Memory>
    ensures { OnOk result (found.new ≡ found.old ++ spec.constructed_by place (spec.global_by x.now.bound x.now.name)) }
{
    match global_in(x) {
        None => Ok(()),
        Some(name) => {
            let name = name.copy(alloc)?;
            found.push(alloc, Site::Constructed { place, name })
        }
    }
}
