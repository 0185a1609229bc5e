// The nodes of a pattern.
use crate::{Bounds, Class};
use std::marker::Model;
use utf16_text::List;

/// What has to hold of a place; it takes no unit (ECMA-262 5.1, section 15.10.2.6).
#[derive(Clone, Copy, Debug, PartialEq, Eq)]
pub enum Assertion {
    /// `^`, the start of the text or of a line.
    Start,
    /// `$`, the end of the text or of a line.
    End,
    /// `\b`, the boundary of a word.
    Boundary,
    /// `\B`, no boundary of a word.
    NoBoundary,
}

pub type NodeList = List<Node>;

/// A part of a pattern (ECMA-262 5.1, section 15.10.1).
#[derive(Drop)]
#[cycle(tree)]
pub struct Node {
    pub kind: NodeKind,
}

/// The kinds of parts.
#[derive(Drop)]
#[cycle(tree)]
pub enum NodeKind {
    /// A unit that stands for itself.
    Unit(u16),
    /// `.`, any unit but a line terminator.
    Any,
    /// A class, or the escape of a set.
    Class(Class),
    Assertion(Assertion),
    /// `\1` and so on: what the group of this number has matched, counted from 0.
    Reference(u8),
    /// Terms, one after the other. A body or group without `|` is a row, also one of a single term or none.
    Row(NodeList),
    /// The rows that `|` parts, the preferred first.
    Alternatives(NodeList),
    /// `( )`, which is kept under its number, counted from 0; or `(?: )`, which isn't kept.
    Group(Option<u8>, Box<Node>),
    Repeat(Box<Node>, Bounds),
}

impl Model for Node {
    ghost use Rattle.js_pattern.specs.Tree.{Tree};
    ghost use Rattle.js_pattern.specs.Size.{tree_size};
    ghost use Rattle.js_pattern.specs.Code.{tree_code};

    ghost Value = { Tree };

    ghost coded = { tree_code };

    ghost use Rattle.js_pattern.specs.View.{node_view};

    ghost view = { node_view };

    ghost size = { tree_size };

    ghost use Rattle.js_pattern.specs.Smaller.{node_smaller};

    ghost size_decreases = { node_smaller };
}
