// What a value can be assigned to (ECMA-262 5.1, sections 8.7 and 11.13).
ghost use Rattle.std.specs.Prelude.{◌≡◌, false};
ghost use Rattle.js_tree.specs.View.{suffixes_of};
ghost use Rattle.js_grammar.specs.Operators as spec;

use js_tree::{Expression, ExpressionNode, Suffix, SuffixNode};

/// Whether a value can be assigned to it: a name, a member or an index.
pub fn is_target(e: &Expression) -> bool
    ensures { result ≡ spec.is_target e.now }
{
    match &e.node {
        ExpressionNode::Name(_) => true,
        ExpressionNode::Suffixed(_, suffixes) => ends_in_part(suffixes.as_slice()),
        _ => false,
    }
}

/// Whether the last suffix is a member or an index.
fn ends_in_part(suffixes: &[Suffix]) -> bool
    ensures { result ≡ spec.ends_in_part false (suffixes_of suffixes.now) }
{
    let mut part = false;
    let mut rest = suffixes;
    while let [suffix, others @ ..] = rest {
        part = matches!(&suffix.node, SuffixNode::Member(_) | SuffixNode::Index(_));
        rest = others;
    }
    part
}
