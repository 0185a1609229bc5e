// `switch` (ECMA-262 5.1, section 12.11).
ghost use Rattle.std.specs.Prelude.{◌≡◌, Ok};
ghost use Rattle.js_tree.specs.Tree.{statements_of};
ghost use Rattle.js_tree.specs.View.{clauses_of};
ghost use Rattle.js_frames.specs.declared.frame.Frame.TheVariants as frame;
ghost use Rattle.js_frames.specs.declared.statement_frame.StatementFrame.TheVariants as of_statement;
ghost use Rattle.js_machine.specs.Moves.{Leads, Moves, at, evaluated, resumed};
ghost use Rattle.js_statements.specs.Switches as spec;

use heap_values::Value;
use js_convert::strict_equals;
use js_evaluation::Thrown;
use js_frames::{Frame, StatementFrame};
use js_machine::{End, Machine, Now, Step};
use js_tree::{Clause, Expression, Statement};
use run_trees::Abrupt;

/// A `switch` on the value of an expression.
pub fn switched<'p>(
    machine: &mut Machine<'p>,
    value: &'p Expression,
    clauses: &'p [Clause],
) -> Step<'p>
    ensures { Leads (at machine.old evaluated value.entry.now (frame.Statement (of_statement.SwitchValue clauses.entry))) machine.old result machine.new }
{
    let frame = StatementFrame::SwitchValue { clauses };
    machine.evaluate(value, Frame::Statement(frame))
}

/// The clauses from the first on whose test is the value, of those that are left; where none of them is, from the one
/// without a test on, of all.
pub fn from_match<'p>(
    machine: &mut Machine<'p>,
    value: Value,
    all: &'p [Clause],
    left: &'p [Clause],
) -> Step<'p>
    ensures { Moves (at machine.old spec.from_match value (clauses_of all.entry.now) (clauses_of left.entry.now)) machine.old result machine.new }
{
    let mut left = left;
    while let [clause, rest @ ..] = left {
        if let Some(test) = &clause.test {
            let body = clause.body.as_slice();
            let frame = StatementFrame::SwitchTest {
                value,
                all,
                body,
                rest,
            };
            return machine.evaluate(test, Frame::Statement(frame));
        }
        left = rest;
    }
    from_default(machine, all)
}

/// The clauses from the one without a test on, where there is one.
fn from_default<'p>(machine: &mut Machine<'p>, all: &'p [Clause]) -> Step<'p>
    ensures { Moves (at machine.old spec.from_default (clauses_of all.entry.now)) machine.old result machine.new }
{
    let mut left = all;
    while let [clause, rest @ ..] = left {
        if clause.test.is_none() {
            return clauses_from(machine, left);
        }
        left = rest;
    }
    Ok(Now::Back(Ok(Value::Undefined)))
}

/// The statements of these clauses, one clause after the other.
fn clauses_from<'p>(machine: &mut Machine<'p>, all: &'p [Clause]) -> Step<'p>
    ensures { Moves (at machine.old spec.clauses_from (clauses_of all.entry.now)) machine.old result machine.new }
{
    let mut left = all;
    while let [clause, rest @ ..] = left {
        if let [one, body @ ..] = clause.body.as_slice() {
            let frame = StatementFrame::SwitchBody { body, rest };
            return machine.execute(one, Frame::Statement(frame));
        }
        left = rest;
    }
    Ok(Now::Back(Ok(Value::Undefined)))
}

/// These statements of a clause, and then the clauses behind it.
pub fn body_from<'p>(
    machine: &mut Machine<'p>,
    body: &'p [Statement],
    rest: &'p [Clause],
) -> Step<'p>
    ensures { Moves (at machine.old spec.body_from (statements_of body.entry.now) (clauses_of rest.entry.now)) machine.old result machine.new }
{
    match body {
        [] => clauses_from(machine, rest),
        [one, body @ ..] => {
            let frame = StatementFrame::SwitchBody { body, rest };
            machine.execute(one, Frame::Statement(frame))
        }
    }
}

/// The test of a clause has a value, which is compared with that of the `switch`.
pub fn compared<'p>(
    machine: &mut Machine<'p>,
    value: Value,
    tested: &Value,
    all: &'p [Clause],
    body: &'p [Statement],
    rest: &'p [Clause],
) -> Step<'p>
    ensures { Leads (at machine.old resumed (frame.Statement (of_statement.SwitchTest value all.entry body.entry rest.entry)) (Ok tested.now)) machine.old result machine.new }
{
    if strict_equals(&value, tested) {
        body_from(machine, body, rest)
    } else {
        from_match(machine, value, all, rest)
    }
}

/// The end of a `switch` within which a part ends abruptly: a break ends it as if it had come to its end.
pub fn switch_end(stop: Abrupt<Thrown, Value, ()>) -> End
    ensures { result ≡ spec.switch_end stop }
{
    match stop {
        Abrupt::Thrown(thrown) => Err(Abrupt::Thrown(thrown)),
        Abrupt::Returned(value) => Err(Abrupt::Returned(value)),
        Abrupt::Broken(()) => Ok(Value::Undefined),
        Abrupt::Continued(()) => Err(Abrupt::Continued(())),
    }
}
