//! A counter over a blank ledger.

ghost use Rattle.std.specs.Prelude.{◌≡◌, ◌+◌, ◌<◌};

use nav_base::Steps;
use std::marker::Brand;
use std::sync::ledger::{Blank, Ledger};

fn tick_twice<L: Ledger>(steps: &mut Steps<L>)
    ensures { steps.new ≡ steps.old + 2 }
{
    steps.tick();
    steps.tick();
}

// A caller that counts nothing hands over a blank ledger, and picks its name where it calls.
fn tick_from<L: Ledger>(blank: Blank)
    requires name { blank.name ≡ L.name }
    requires parts { blank.parts ≡ L.parts }
    requires some { 0 < blank.parts }
{
    let mut steps = Steps::<L>::new(blank);
    tick_twice(&mut steps);
}

#[test]
fn two_ticks() {
    tick_from::<Brand>(Blank::new(1));
}
