// What a part takes that has no parts of its own (ECMA-262 5.1, sections 15.10.2.6 to 15.10.2.14).
ghost use Rattle.std.specs.Prelude.{◌≡◌, ◌-◌, drop, slice_get, take};
ghost use Rattle.js_pattern.specs.Leaves.{
  behind_any,
  behind_assertion,
  behind_class,
  behind_reference,
  behind_text,
  behind_unit,
  is_asserted,
  is_boundary,
};
ghost use Rattle.js_regex.specs.Singles.{is_single};

use crate::groups::Groups;
use crate::matcher::Matcher;
use crate::units::{
    begins, in_class, is_break_at, is_break_before, is_word_at, is_word_before, part, same_unit,
};
use js_pattern::{Assertion, Class, Node, NodeKind, Span};
use utf16_text::is_line_terminator;

impl<'p> Matcher<'p> {
    ghost use Rattle.js_regex.specs.Singles.{behind_leaf, behind_single};
    ghost use Rattle.js_regex.specs.Subjects.{subject_in};

    /// The place behind a part that takes one unit. None where it doesn't match, or takes none.
    #[inline(always)]
    pub(crate) fn single(self, node: &Node, place: usize) -> Option<usize>
        ensures { result ≡ behind_single (subject_in self.entry) node.now place }
    {
        match &node.kind {
            NodeKind::Unit(unit) => self.unit(*unit, place),
            NodeKind::Any => self.any(place),
            NodeKind::Class(class) => self.class(class, place),
            _ => None,
        }
    }

    /// The place behind a part that takes one unit or is an assertion, if it matches. None where it is another.
    #[inline(always)]
    pub(crate) fn leaf(self, node: &Node, place: usize) -> Option<Option<usize>>
        ensures { result ≡ behind_leaf (subject_in self.entry) node.now place }
    {
        match &node.kind {
            NodeKind::Unit(_) | NodeKind::Any | NodeKind::Class(_) => {
                Some(self.single(node, place))
            }
            NodeKind::Assertion(assertion) => Some(self.assertion(*assertion, place)),
            _ => None,
        }
    }

    /// The place behind a unit.
    fn unit(self, unit: u16, place: usize) -> Option<usize>
        ensures { result ≡ behind_unit (subject_in self.entry) unit place }
    {
        match self.text.get(place) {
            Some(here) if same_unit(self.flags.ignore_case, unit, *here) => Some(place + 1),
            _ => None,
        }
    }

    /// The place behind any unit but a line terminator.
    fn any(self, place: usize) -> Option<usize>
        ensures { result ≡ behind_any (subject_in self.entry) place }
    {
        match self.text.get(place) {
            Some(here) if !is_line_terminator(*here) => Some(place + 1),
            _ => None,
        }
    }

    /// The place behind a unit of a class.
    #[inline(always)]
    fn class(self, class: &Class, place: usize) -> Option<usize>
        ensures { result ≡ behind_class (subject_in self.entry) class.now place }
    {
        match self.text.get(place) {
            Some(here) if in_class(self.flags.ignore_case, class, *here) => Some(place + 1),
            _ => None,
        }
    }

    /// Whether one of the two units beside a place is of a word, and the other isn't.
    fn is_boundary(self, place: usize) -> bool
        ensures { result ≡ is_boundary self.entry.text.now place }
    {
        is_word_before(self.text, place) != is_word_at(self.text, place)
    }

    fn is_asserted(self, assertion: Assertion, place: usize) -> bool
        ensures { result ≡ is_asserted (subject_in self.entry) assertion place }
    {
        match assertion {
            Assertion::Start => {
                place == 0 || self.flags.multiline && is_break_before(self.text, place)
            }
            Assertion::End => {
                place == self.text.len() || self.flags.multiline && is_break_at(self.text, place)
            }
            Assertion::Boundary => self.is_boundary(place),
            Assertion::NoBoundary => !self.is_boundary(place),
        }
    }

    /// The same place, where the assertion holds.
    pub(crate) fn assertion(self, assertion: Assertion, place: usize) -> Option<usize>
        ensures { result ≡ behind_assertion (subject_in self.entry) assertion place }
    {
        if self.is_asserted(assertion, place) {
            Some(place)
        } else {
            None
        }
    }

    /// The place behind what a group has matched, where it stands here once more; the same place where the group is
    /// unset.
    pub(crate) fn reference(self, groups: &Groups, number: u8, place: usize) -> Option<usize>
        ensures { result ≡ behind_reference (subject_in self.entry) (slice_get groups.now number) place }
    {
        match groups.get(number) {
            Some(Some(span)) => self.text_again(span, place),
            _ => Some(place),
        }
    }

    fn text_again(self, span: Span, place: usize) -> Option<usize>
        ensures { result ≡ behind_text (subject_in self.entry) (take (span.to - span.from) (drop span.from self.entry.text.now)) place }
    {
        let earlier = part(self.text, span.from, span.to);
        if earlier.is_empty() {
            return Some(place);
        }
        let rest = part(self.text, place, self.text.len());
        if begins(self.flags.ignore_case, earlier, rest) {
            Some(place + earlier.len())
        } else {
            None
        }
    }
}

/// Whether a part takes one unit, whatever it stands in.
pub(crate) fn takes_one_unit(node: &Node) -> bool
    ensures { result ≡ is_single node.now }
{
    matches!(
        node.kind,
        NodeKind::Unit(_) | NodeKind::Any | NodeKind::Class(_)
    )
}
