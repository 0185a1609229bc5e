// Terms that fail before a part with parts of its own is taken up: what that costs, with nothing noted.
ghost use Rattle.std.specs.Prelude.{IfSome};
ghost use Rattle.js_pattern.specs.Tree.{a_tree, trees_of};

use crate::FindAnswer;
use crate::fuel::spend;
use crate::matcher::Matcher;
use crate::state::State;
use crate::step::Pending;
use js_pattern::{Node, NodeKind};

impl<'p> Matcher<'p> {
    ghost use Rattle.js_regex.specs.Failing.{RowFails, WalkFails};
    ghost use Rattle.js_regex.specs.Subjects.{subject_in};
    ghost use Rattle.js_regex.specs.Turns.{IsOpen};

    /// What terms cost at a place where they fail. None where they don't, or it takes more to tell.
    fn terms_fail(self, terms: &[Node], place: usize) -> Option<u64>
        ensures { IfSome result (RowFails (subject_in self.entry) (trees_of terms.now) place) }
    {
        let mut here = place;
        let mut left = terms;
        while let Some((first, others)) = left.split_first() {
            match self.leaf(first, here)? {
                None => return Some((terms.len() - others.len()) as u64),
                Some(behind) => here = behind,
            }
            left = others;
        }
        None
    }

    /// What a term and those behind it cost at a place where they fail.
    fn row_fails(self, first: &Node, others: &[Node], place: usize) -> Option<u64>
        ensures { IfSome result (RowFails (subject_in self.entry) (a_tree first.now (trees_of others.now)) place) }
    {
        match self.leaf(first, place)? {
            None => Some(1),
            Some(behind) => self.terms_fail(others, behind)?.checked_add(1),
        }
    }

    /// What a whole pattern costs at a place where it fails.
    pub(crate) fn whole_fails(self, root: &Node, place: usize) -> Option<u64>
        ensures { IfSome result (WalkFails (subject_in self.entry) root.now place) }
    {
        match &root.kind {
            NodeKind::Row(terms) => match terms.as_slice() {
                [] => None,
                [first, others @ ..] => self.row_fails(first, others, place)?.checked_add(1),
            },
            _ => None,
        }
    }

    /// The last of some places from which a Repeat can be left without failing at once. None where there is none.
    pub(crate) fn last_open(
        self,
        state: &State<'p>,
        from: usize,
        last: usize,
        fuel: &mut u64,
    ) -> Result<Option<usize>, FindAnswer>
        ensures { IsOpen (subject_in self.entry) state.now from last fuel.old result fuel.new }
    {
        let Some(Pending::Terms(first, others)) = state.pending.top() else {
            return Ok(Some(last));
        };
        let mut place = last;
        while let Some(cost) = self.row_fails(first, others, place) {
            spend(fuel, cost)?;
            if place <= from {
                return Ok(None);
            }
            place -= 1;
        }
        Ok(Some(place))
    }
}
