// Where a match stands, and how its parts change that.
ghost use Rattle.std.specs.Prelude.{◌≡◌, ◌≤◌, ◌-◌, [], ◌∷◌, IfOk, MatchOption, None, OnOk, slice_set};
ghost use Rattle.js_pattern.specs.Place.{closed, unset_from};
ghost use Rattle.js_pattern.specs.Search.{start};
ghost use Rattle.js_pattern.specs.Tree.{a_tree, alternatives, group, repeat, row, trees_of};
ghost use Rattle.js_pattern.specs.Walk.{alternatives_walk, forward, offer, taking};

use crate::groups::Groups;
use crate::stack::Stack;
use crate::step::{Pending, Step, Undo};
use js_pattern::{Bounds, Node, NodeList, Span};
use std::alloc::Global;
use utf16_text::Memory;

/// Where a match stands: the place, the groups, what is still to be matched behind the terms at hand, and what is
/// undone or tried where it goes back.
#[derive(Drop)]
pub(crate) struct State<'p> {
    pub(crate) place: usize,
    pub(crate) groups: Groups,
    pub(crate) pending: Stack<Pending<'p>>,
    pub(crate) undo: Stack<Undo<'p>>,
}

ghost use Rattle.js_regex.specs.Moves.{Logs, LogsPopped};
ghost use Rattle.js_regex.specs.Stacks.{noted};

// While nothing is left to be tried, a change needs no note: nobody goes back to before it.
fn log<'p>(undo: &mut Stack<Undo<'p>>, change: Undo<'p>) -> Result<(), Memory>
    ensures { OnOk result (Logs change.entry undo.old undo.new) }
{
    if undo.is_empty() {
        return Ok(());
    }
    undo.push(change)
}

fn note<'p>(top: Pending<'p>) -> Undo<'p>
    ensures { result ≡ noted top.entry }
{
    match top {
        Pending::Terms(first, others) => Undo::Terms(first, others),
        Pending::Close(number, from) => Undo::Close(number, from),
        Pending::Turn(body, bounds, from) => Undo::Turn(body, bounds, from),
    }
}

// What was put on top since there is something to be tried needs no note when it is taken from there.
fn log_popped<'p>(undo: &mut Stack<Undo<'p>>, top: Pending<'p>) -> Result<(), Memory>
    ensures { OnOk result (LogsPopped top.entry undo.old undo.new) }
{
    match undo.top() {
        None => Ok(()),
        Some(Undo::Pushed) => {
            let _ = undo.pop();
            Ok(())
        }
        Some(_) => undo.push(note(top)),
    }
}

impl<'p> State<'p> {
    ghost use Rattle.js_regex.specs.Moves.{
      GoesBack,
      GoesOn,
      GoesOnBefore,
      Pops,
      Pushes,
      Saves,
      Sets,
      Begins,
      TakesNext,
      TakesUp,
      EndsAs,
      here,
      back_of,
      weight,
    };
    ghost use Rattle.js_pattern.specs.Place.{Subject};
    ghost use Rattle.js_regex.specs.Stacks.{after, leaving};

    /// A state at the front of a text, with nothing to be matched. It takes no memory.
    pub(crate) fn new(alloc: Global) -> State<'p> {
        State {
            place: 0,
            groups: Groups::new(alloc),
            pending: Stack::new(alloc),
            undo: Stack::new(alloc),
        }
    }

    /// Begins at a place, with nothing to be matched and all groups unset.
    pub(crate) fn start(&mut self, count: usize, place: usize) -> Result<(), Memory>
        ensures { OnOk result ((self.new.pending ≡ []) × (self.new.undo ≡ []) × (here self.new ≡ start count place)) }
    {
        self.place = place;
        self.pending.clear();
        self.undo.clear();
        self.groups.reset(count)
    }

    fn push(&mut self, pending: Pending<'p>) -> Result<(), Memory>
        ensures { OnOk result (Pushes pending.entry self.old self.new) }
    {
        log(&mut self.undo, Undo::Pushed)?;
        self.pending.push(pending)
    }

    fn pop(&mut self) -> Result<Option<Pending<'p>>, Memory>
        ensures { IfOk result (λ r. MatchOption r
            ((self.old.pending ≡ []) × (self.new ≡ self.old))
            (λ top. Pops top self.old self.new)) }
    {
        match self.pending.pop() {
            None => Ok(None),
            Some(top) => {
                log_popped(&mut self.undo, top)?;
                Ok(Some(top))
            }
        }
    }

    /// Puts terms on top of what is pending.
    fn save(&mut self, terms: &'p [Node]) -> Result<(), Memory>
        ensures { OnOk result (Saves (trees_of terms.entry.now) self.old self.new) }
    {
        match terms {
            [] => Ok(()),
            [first, others @ ..] => self.push(Pending::Terms(first, others)),
        }
    }

    /// Sets a group, or unsets it.
    fn set_group(&mut self, number: u8, value: Option<Span>) -> Result<(), Memory>
        ensures { OnOk result (Sets (slice_set self.old.groups number value) self.old self.new) }
    {
        match self.groups.get(number) {
            None => Ok(()),
            Some(old) => {
                log(&mut self.undo, Undo::Group(number, old))?;
                self.groups.set(number, value);
                Ok(())
            }
        }
    }

    /// Unsets the groups within a Repeat.
    fn unset(&mut self, bounds: Bounds) -> Result<(), Memory>
        ensures { OnOk result (Sets (unset_from bounds.from_group (bounds.to_group - bounds.from_group) self.old.groups) self.old self.new) }
    {
        for number in bounds.from_group..bounds.to_group {
            self.unset_group(number)?;
        }
        Ok(())
    }

    // A group that is unset needs no note.
    fn unset_group(&mut self, number: u8) -> Result<(), Memory>
        ensures { OnOk result (Sets (slice_set self.old.groups number None) self.old self.new) }
    {
        match self.groups.get(number) {
            None => Ok(()),
            Some(None) => Ok(()),
            Some(Some(_)) => self.set_group(number, None),
        }
    }

    /// What comes next behind these terms. None where nothing is still to be matched.
    pub(crate) fn next(&mut self, terms: &'p [Node]) -> Result<Option<Step<'p>>, Memory>
        ensures { IfOk result (λ r. TakesNext (trees_of terms.entry.now) self.old r self.new) }
    {
        match terms {
            [first, others @ ..] => Ok(Some(Step::Part(first, others))),
            [] => match self.pop()? {
                None => Ok(None),
                Some(Pending::Terms(first, others)) => Ok(Some(Step::Part(first, others))),
                Some(Pending::Close(number, from)) => Ok(Some(Step::Close(number, from))),
                Some(Pending::Turn(body, bounds, from)) => Ok(Some(Step::Turn(body, bounds, from))),
            },
        }
    }

    /// Goes on at the place that a part leads to, or back where it leads to none.
    pub(crate) fn forward(&mut self, place: Option<usize>, others: &'p [Node]) -> Step<'p>
        ensures { GoesOnBefore (λ _. forward place) (trees_of others.entry.now) self.old self.new result }
    {
        match place {
            None => Step::Back,
            Some(place) => {
                self.place = place;
                Step::On(others)
            }
        }
    }

    /// Takes up the terms of a row.
    pub(crate) fn row(
        &mut self,
        terms: &'p NodeList,
        others: &'p [Node],
    ) -> Result<Step<'p>, Memory>
        ensures { IfOk result (TakesUp (row (trees_of terms.entry.now)) (trees_of others.entry.now) self.old self.new) }
    {
        self.save(others)?;
        Ok(Step::On(terms.as_slice()))
    }

    /// Takes up the first of some alternatives, and notes the others.
    fn preferred(&mut self, first: &'p Node, others: &'p [Node]) -> Result<Step<'p>, Memory>
        ensures { IfOk result (Begins (λ s. alternatives_walk s (a_tree first.entry.now (trees_of others.entry.now))) self.old self.new) }
    {
        match others {
            [] => Ok(Step::Part(first, &[])),
            [second, more @ ..] => {
                self.undo
                    .push(Undo::Alternatives(self.place, second, more))?;
                Ok(Step::Part(first, &[]))
            }
        }
    }

    /// Takes up alternatives.
    pub(crate) fn alternatives(
        &mut self,
        all: &'p NodeList,
        others: &'p [Node],
    ) -> Result<Step<'p>, Memory>
        ensures { IfOk result (TakesUp (alternatives (trees_of all.entry.now)) (trees_of others.entry.now) self.old self.new) }
    {
        self.save(others)?;
        match all.as_slice() {
            [] => Ok(Step::Back),
            [first, more @ ..] => self.preferred(first, more),
        }
    }

    /// Takes up a group, which is kept under its number, if it has one.
    pub(crate) fn group(
        &mut self,
        number: Option<u8>,
        body: &'p Node,
        others: &'p [Node],
    ) -> Result<Step<'p>, Memory>
        ensures { IfOk result (TakesUp (group number body.entry.now) (trees_of others.entry.now) self.old self.new) }
    {
        self.save(others)?;
        self.push(Pending::Close(number, self.place))?;
        Ok(Step::Part(body, &[]))
    }

    /// Takes up the mark behind a group that began at a place.
    pub(crate) fn close(&mut self, number: Option<u8>, from: usize) -> Result<Step<'p>, Memory>
        ensures { IfOk result (GoesOn (λ s k at. k (closed number from at)) self.old self.new) }
    {
        match number {
            None => Ok(Step::On(&[])),
            Some(number) => {
                let to = self.place;
                self.set_group(number, Some(Span { from, to }))?;
                Ok(Step::On(&[]))
            }
        }
    }

    /// Takes a turn of a Repeat.
    fn take(&mut self, body: &'p Node, bounds: Bounds) -> Result<Step<'p>, Memory>
        ensures { IfOk result (Begins (λ s. taking s body.entry.now bounds) self.old self.new) }
    {
        self.unset(bounds)?;
        self.push(Pending::Turn(body, bounds, self.place))?;
        Ok(Step::Part(body, &[]))
    }

    /// Takes a turn of a Repeat that was taken up, or leaves it.
    pub(crate) fn repeat(&mut self, body: &'p Node, bounds: Bounds) -> Result<Step<'p>, Memory>
        ensures light { IfOk result (λ next. weight next ≤ 1) }
        ensures goes { IfOk result (GoesOn (λ s. offer s (repeat body.entry.now bounds)) self.old self.new) }
    {
        if bounds.is_spent() {
            return Ok(Step::On(&[]));
        }
        if bounds.least > 0 {
            return self.take(body, bounds);
        }
        if bounds.greedy {
            self.undo.push(Undo::Leave(self.place, self.place))?;
            return self.take(body, bounds);
        }
        self.undo.push(Undo::Take(self.place, body, bounds))?;
        Ok(Step::On(&[]))
    }

    /// Takes up a Repeat, with terms behind it in its row.
    pub(crate) fn repeat_before(
        &mut self,
        body: &'p Node,
        bounds: Bounds,
        others: &'p [Node],
    ) -> Result<Step<'p>, Memory>
        ensures { IfOk result (TakesUp (repeat body.entry.now bounds) (trees_of others.entry.now) self.old self.new) }
    {
        self.save(others)?;
        Ok(Step::Turns(body, bounds))
    }

    /// Leaves a Repeat from a place, and notes that it can be left from those before it down to another.
    pub(crate) fn leave(&mut self, from: usize, place: usize) -> Result<Step<'p>, Memory>
        ensures goes { IfOk result (λ next. (s : Subject) → EndsAs (leaving (after s self.old.pending) self.old.groups place (place - from)) s self.old self.new next) }
        ensures light { IfOk result (λ next. weight next ≡ 1) }
    {
        if from < place {
            self.undo.push(Undo::Leave(from, place - 1))?;
        }
        self.place = place;
        Ok(Step::On(&[]))
    }

    /// Goes back to what is tried next. None where nothing is left to be tried.
    pub(crate) fn back(&mut self) -> Result<Option<Step<'p>>, Memory>
        ensures { IfOk result (λ r. GoesBack self.old r self.new) }
    {
        while let Some(undo) = self.undo.pop() {
            match undo {
                Undo::Pushed => {
                    let _ = self.pending.pop();
                }
                Undo::Terms(first, others) => {
                    self.pending.push(Pending::Terms(first, others))?;
                }
                Undo::Close(number, from) => self.pending.push(Pending::Close(number, from))?,
                Undo::Turn(body, bounds, from) => {
                    self.pending.push(Pending::Turn(body, bounds, from))?;
                }
                Undo::Group(number, old) => self.groups.set(number, old),
                Undo::Alternatives(place, first, others) => {
                    self.place = place;
                    return Ok(Some(self.preferred(first, others)?));
                }
                Undo::Leave(from, last) => return Ok(Some(Step::Leave(from, last))),
                Undo::Take(place, body, bounds) => {
                    self.place = place;
                    return Ok(Some(self.take(body, bounds)?));
                }
            }
        }
        Ok(None)
    }
}
