// The names that an assignment writes or makes.
ghost use Rattle.std.specs.Prelude.{◌≡◌, ◌++◌, OnOk};
ghost use Rattle.js_tree.specs.View.{suffix_of, suffixes_of};
ghost use Rattle.js_sites.specs.Sites as spec;

use crate::names::add_written_name;
use crate::{Site, SiteList};
use js_tree::{AssignOp, BoundName, Expression, ExpressionNode, Suffix, SuffixNode};
use std::alloc::Global;
use utf16_text::{Memory, Text};

/// Adds what an assignment by this operator writes or makes, by its target.
pub(crate) fn add_written(
    alloc: Global,
    op: AssignOp,
    target: &Expression,
    found: &mut SiteList,
) -> Result<(), Memory>
    ensures { OnOk result (found.new ≡ found.old ++ spec.written_sites op target.now) }
{
    match &target.node {
        ExpressionNode::Name(x) => add_set(alloc, op, x, found),
        ExpressionNode::Suffixed(first, all) => {
            add_made(alloc, is_this(first), all.as_slice(), found)
        }
        _ => Ok(()),
    }
}

/// Only `=` makes a global name; every other operator reads it first.
fn add_set(alloc: Global, op: AssignOp, x: &BoundName, found: &mut SiteList) -> Result<(), Memory>
    ensures { OnOk result (found.new ≡ found.old ++ spec.set_sites op x.now) }
{
    match op {
        AssignOp::Set => add_written_name(alloc, x, found),
        _ => Ok(()),
    }
}

fn is_this(e: &Expression) -> bool
    ensures { result ≡ spec.is_this e.now }
{
    matches!(&e.node, ExpressionNode::This)
}

/// Adds the property that the last of these suffixes names. `this` tells whether they stand behind `this`.
fn add_made(alloc: Global, this: bool, all: &[Suffix], found: &mut SiteList) -> Result<(), Memory>
    ensures { OnOk result (found.new ≡ found.old ++ spec.made_sites this (suffixes_of all.now)) }
{
    match all {
        [] => Ok(()),
        [only] => add_made_by(alloc, this, only, found),
        [_, next, rest @ ..] => add_made_last(alloc, next, rest, found),
    }
}

/// The same of a suffix and those behind it, of which none stands right behind `this`.
fn add_made_last(
    alloc: Global,
    first: &Suffix,
    behind: &[Suffix],
    found: &mut SiteList,
) -> Result<(), Memory>
    ensures { OnOk result (found.new ≡ found.old ++ spec.made_last (suffix_of first.now.place first.now.node) (suffixes_of behind.now)) }
{
    let mut last = first;
    let mut left = behind;
    while let [next, rest @ ..] = left {
        last = next;
        left = rest;
    }
    add_made_by(alloc, false, last, found)
}

fn add_made_by(
    alloc: Global,
    this: bool,
    suffix: &Suffix,
    found: &mut SiteList,
) -> Result<(), Memory>
    ensures { OnOk result (found.new ≡ found.old ++ spec.made_by this (suffix_of suffix.now.place suffix.now.node)) }
{
    match &suffix.node {
        SuffixNode::Member(name) => add_property(alloc, this, name, found),
        SuffixNode::Index(key) => add_made_key(alloc, this, key, found),
        SuffixNode::Call(_) => Ok(()),
    }
}

/// A key that is written as a text names the property.
fn add_made_key(
    alloc: Global,
    this: bool,
    key: &Expression,
    found: &mut SiteList,
) -> Result<(), Memory>
    ensures { OnOk result (found.new ≡ found.old ++ spec.made_key this key.now) }
{
    match &key.node {
        ExpressionNode::Text(name) => add_property(alloc, this, name, found),
        _ => Ok(()),
    }
}

/// In a plain call `this` is the global object, so its property is a global name (ECMA-262 5.1, section 10.4.3).
fn add_property(alloc: Global, this: bool, name: &Text, found: &mut SiteList) -> Result<(), Memory>
    ensures { OnOk result (found.new ≡ found.old ++ spec.made_property this name.now) }
{
    if this {
        let name = name.copy(alloc)?;
        found.push(alloc, Site::Written { name })?;
    }
    add_made_name(alloc, name, found)
}

/// Adds that a property of this name is made.
pub(crate) fn add_made_name(alloc: Global, name: &Text, found: &mut SiteList) -> Result<(), Memory>
    ensures { OnOk result (found.new ≡ found.old ++ spec.made_name name.now) }
{
    let name = name.copy(alloc)?;
    found.push(alloc, Site::Made { name })
}
