// Whole patterns.
ghost use Rattle.std.specs.Prelude.{◌≡◌};
ghost use Rattle.js_pattern.specs.Groups.{groups_of, IsNumbered};

use crate::{Flags, Node};
use std::marker::Model;

/// A pattern: its tree, how many groups it keeps, and its flags.
#[derive(Drop)]
pub struct Pattern {
    root: Node,
    groups: u8,
    flags: Flags,
}

impl Model for Pattern {
    ghost use Rattle.std.specs.Prelude.{◌≡◌};
    ghost use Rattle.js_pattern.specs.Groups.{groups_of, IsNumbered};
    ghost use Rattle.js_pattern.specs.Pattern.{PatternTree, pattern_code};

    ghost Value = { PatternTree };

    ghost coded = { pattern_code };

    ghost view = { λ p. record { tree = p.root; groups = p.groups; flags = p.flags } };

    ghost invariant = { λ p. (p.groups ≡ groups_of p.root) × IsNumbered 0 p.root };
}

impl Pattern {
    /// The pattern of these parts.
    pub fn new(root: Node, groups: u8, flags: Flags) -> Pattern
        requires count { groups ≡ groups_of root }
        requires numbered { IsNumbered 0 root }
        ensures { result ≡ record { tree = root; groups = groups; flags = flags } }
    {
        Pattern {
            root,
            groups,
            flags,
        }
    }

    pub fn root(&self) -> &Node
        ensures tree { result.now ≡ self.now.tree }
        ensures numbered { IsNumbered 0 result.now }
    {
        &self.root
    }

    /// How many groups it keeps.
    pub fn groups(&self) -> u8
        ensures count { result ≡ self.now.groups }
        ensures of_tree { result ≡ groups_of self.now.tree }
    {
        self.groups
    }

    pub fn flags(&self) -> Flags
        ensures { result ≡ self.now.flags }
    {
        self.flags
    }
}
