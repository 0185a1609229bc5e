// The matcher.
ghost use Rattle.std.specs.Prelude.{◌≡◌, IfOk};
ghost use Rattle.js_pattern.specs.Place.{units_left};
ghost use Rattle.js_pattern.specs.Search.{start};
ghost use Rattle.js_pattern.specs.Walk.{found, walk};

use crate::FindAnswer;
use crate::fuel::spend;
use crate::state::State;
use crate::step::Step;
use js_pattern::{Bounds, Flags, Node, NodeKind};
use utf16_text::Memory;

/// The text that is searched, and how the pattern is to be read.
#[derive(Clone, Copy)]
pub(crate) struct Matcher<'p> {
    pub(crate) text: &'p [u16],
    pub(crate) flags: Flags,
}

impl<'p> Matcher<'p> {
    ghost use Rattle.js_regex.specs.Moves.{Follows};
    ghost use Rattle.js_regex.specs.Runs.{Ran, outcome_from};
    ghost use Rattle.js_regex.specs.Subjects.{subject_in};
    ghost use Rattle.js_regex.specs.declared.step.Step.TheVariants as step;

    fn units_left(self, place: usize) -> usize
        ensures { result ≡ units_left (subject_in self.entry) place }
    {
        self.text.len().saturating_sub(place)
    }

    /// Takes up the mark behind a turn of a Repeat: one that could have been left out must have taken a unit.
    fn turn(self, state: &State<'p>, body: &'p Node, bounds: Bounds, from: usize) -> Step<'p>
        ensures { Follows (subject_in self.entry) state.now (step.Turn body.entry bounds from) state.now result }
    {
        if bounds.least == 0 && self.units_left(state.place) >= self.units_left(from) {
            return Step::Back;
        }
        Step::Repeat(body, bounds.smaller())
    }

    /// Takes up a part, with the terms behind it in its row.
    fn part(
        self,
        state: &mut State<'p>,
        node: &'p Node,
        others: &'p [Node],
    ) -> Result<Step<'p>, Memory>
        ensures { IfOk result (Follows (subject_in self.entry) state.old (step.Part node.entry others.entry) state.new) }
    {
        let place = state.place;
        match &node.kind {
            NodeKind::Unit(_) | NodeKind::Any | NodeKind::Class(_) => {
                Ok(state.forward(self.single(node, place), others))
            }
            NodeKind::Assertion(assertion) => {
                Ok(state.forward(self.assertion(*assertion, place), others))
            }
            NodeKind::Reference(number) => {
                let behind = self.reference(&state.groups, *number, place);
                Ok(state.forward(behind, others))
            }
            NodeKind::Row(terms) => state.row(terms, others),
            NodeKind::Alternatives(all) => state.alternatives(all, others),
            NodeKind::Group(number, body) => state.group(*number, body, others),
            NodeKind::Repeat(body, bounds) => state.repeat_before(body, *bounds, others),
        }
    }

    /// Takes up what comes next, where it is a part or a mark.
    fn take_up(self, state: &mut State<'p>, next: Step<'p>) -> Result<Step<'p>, Memory>
        ensures { IfOk result (Follows (subject_in self.entry) state.old next.entry state.new) }
    {
        match next {
            Step::Part(node, others) => self.part(state, node, others),
            Step::Repeat(body, bounds) => Ok(Step::Turns(body, bounds)),
            Step::Close(number, from) => state.close(number, from),
            Step::Turn(body, bounds, from) => Ok(self.turn(state, body, bounds, from)),
            Step::Turns(..) | Step::Leave(..) | Step::On(_) | Step::Back => Ok(next),
        }
    }

    /// Runs a match to its end: whether it came to the end of the pattern. Each part and mark that is taken up takes
    /// one unit of fuel.
    fn run(self, state: &mut State<'p>, root: &'p Node, fuel: &mut u64) -> Result<bool, FindAnswer>
        ensures { Ran (outcome_from (subject_in self.entry) root.entry.now state.old) fuel.old result fuel.new state.new }
    {
        let mut now = Step::Part(root, &[]);
        'steps: loop {
            match now {
                Step::On(terms) => match state.next(terms)? {
                    None => return Ok(true),
                    Some(next) => now = next,
                },
                Step::Back => match state.back()? {
                    None => return Ok(false),
                    Some(next) => now = next,
                },
                Step::Turns(body, bounds) => now = self.turns(state, body, bounds, fuel)?,
                Step::Leave(from, last) => now = self.leave(state, from, last, fuel)?,
                next => {
                    spend(fuel, 1)?;
                    now = self.take_up(state, next)?;
                }
            }
        }
    }

    /// Runs a match of a whole pattern from a place, with all groups unset.
    pub(crate) fn run_from(
        self,
        state: &mut State<'p>,
        root: &'p Node,
        count: usize,
        place: usize,
        fuel: &mut u64,
    ) -> Result<bool, FindAnswer>
        ensures { Ran (walk (subject_in self.entry) root.entry.now found (start count place)) fuel.old result fuel.new state.new }
    {
        if let Some(cost) = self.whole_fails(root, place) {
            spend(fuel, cost)?;
            return Ok(false);
        }
        match state.start(count, place) {
            Err(_) => Err(FindAnswer::Memory),
            Ok(()) => self.run(state, root, fuel),
        }
    }
}
