// Greedy turns of a part that takes one unit: they leave no marks, and one note for all places where they can end.
ghost use Rattle.std.specs.Prelude.{IsTrue};
ghost use Rattle.js_regex.specs.Turns.{IsPlain};

use crate::FindAnswer;
use crate::fuel::spend;
use crate::leaf::takes_one_unit;
use crate::matcher::Matcher;
use crate::state::State;
use crate::step::Step;
use js_pattern::{Bounds, Node};

// A turn takes up its part, its mark and the smaller Repeat.
const TURN: u64 = 3;

/// Where a Repeat stands, and the bounds of the turns that are left.
#[derive(Clone, Copy)]
pub(crate) struct Turning {
    pub(crate) place: usize,
    pub(crate) bounds: Bounds,
}

fn is_plain(body: &Node, bounds: Bounds) -> bool
    ensures { IsTrue result → IsPlain body.now bounds }
{
    bounds.greedy && bounds.to_group <= bounds.from_group && takes_one_unit(body)
}

impl<'p> Matcher<'p> {
    ghost use Rattle.js_regex.specs.Moves.{outcome_of};
    ghost use Rattle.js_regex.specs.Runs.{Goes};
    ghost use Rattle.js_regex.specs.Subjects.{subject_in};
    ghost use Rattle.js_regex.specs.Turns.{IsFree, IsPlain, TakesLeast, TakesMost, leaving_from};
    ghost use Rattle.js_regex.specs.declared.step.Step.TheVariants as step;

    /// Takes the turns that must be taken. None where one of them fails.
    fn must(
        self,
        body: &Node,
        begun: Turning,
        fuel: &mut u64,
    ) -> Result<Option<Turning>, FindAnswer>
        requires { IsPlain body.now begun.bounds }
        ensures { TakesLeast (subject_in self.entry) body.now begun fuel.old result fuel.new }
    {
        let mut now = begun;
        while now.bounds.least > 0 && !now.bounds.is_spent() {
            let Some(place) = self.single(body, now.place) else {
                spend(fuel, 1)?;
                return Ok(None);
            };
            spend(fuel, TURN)?;
            now = Turning {
                place,
                bounds: now.bounds.smaller(),
            };
        }
        Ok(Some(now))
    }

    /// Takes as many turns as can be taken, and tells where the last one ends.
    fn may(self, body: &Node, begun: Turning, fuel: &mut u64) -> Result<usize, FindAnswer>
        requires plain { IsPlain body.now begun.bounds }
        requires free { IsFree begun.bounds }
        ensures { TakesMost (subject_in self.entry) body.now begun fuel.old result fuel.new }
    {
        let mut now = begun;
        while !now.bounds.is_spent() {
            let Some(place) = self.single(body, now.place) else {
                spend(fuel, 1)?;
                return Ok(now.place);
            };
            spend(fuel, TURN)?;
            now = Turning {
                place,
                bounds: now.bounds.smaller(),
            };
        }
        Ok(now.place)
    }

    /// Leaves a Repeat from the last of some places from which that doesn't fail at once.
    pub(crate) fn leave(
        self,
        state: &mut State<'p>,
        from: usize,
        last: usize,
        fuel: &mut u64,
    ) -> Result<Step<'p>, FindAnswer>
        ensures { Goes (subject_in self.entry) (leaving_from (subject_in self.entry) state.old from last) 2 fuel.old result fuel.new state.new }
    {
        match self.last_open(state, from, last, fuel)? {
            None => Ok(Step::Back),
            Some(place) => Ok(state.leave(from, place)?),
        }
    }

    /// Takes the turns of a Repeat that was taken up.
    pub(crate) fn turns(
        self,
        state: &mut State<'p>,
        body: &'p Node,
        bounds: Bounds,
        fuel: &mut u64,
    ) -> Result<Step<'p>, FindAnswer>
        ensures { Goes (subject_in self.entry) (outcome_of (subject_in self.entry) state.old (step.Turns body.entry bounds)) 3 fuel.old result fuel.new state.new }
    {
        if !is_plain(body, bounds) {
            return Ok(state.repeat(body, bounds)?);
        }
        let begun = Turning {
            place: state.place,
            bounds,
        };
        let Some(least) = self.must(body, begun, fuel)? else {
            return Ok(Step::Back);
        };
        let last = self.may(body, least, fuel)?;
        self.leave(state, least.place, last, fuel)
    }
}
