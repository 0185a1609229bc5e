// Steps that are counted.
ghost use Rattle.std.specs.Prelude.{◌≡◌, ◌+◌, ◌<◌};

use std::marker::Brand;
use std::sync::ledger::{Blank, Ledger};
use step_counter::Steps;

fn twice<L: Ledger>(steps: &mut Steps<L>) -> u32
    ensures { steps.new ≡ steps.old + 2 }
{
    steps.tick();
    steps.tick();
    7
}

fn counted<L: Ledger>(blank: Blank) -> u32
    requires name { blank.name ≡ L.name }
    requires parts { blank.parts ≡ L.parts }
    requires some { 0 < blank.parts }
{
    let mut steps = Steps::<L>::new(blank);
    twice(&mut steps)
}

#[test]
fn a_counted_call_answers(rt: HostRuntime) {
    assert_eq!(rt; counted::<Brand>(Blank::new(1)), 7);
}
