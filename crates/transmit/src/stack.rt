// What is pushed on the status stack.
ghost use Rattle.std.specs.Prelude.{◌≡◌, cond, ◌≤◌};
ghost use Rattle.transmit_rules.specs.Stack.{stack, Room, added};
ghost use Rattle.transmit_rules.specs.Reports.{with_statuses};
ghost use Rattle.transmit_rules.specs.Outcome.{push};
ghost use Rattle.transmit_rules.specs.OutcomesView.{reports_of, Stacked, Reported};

use crate::statuses;
use transmit_rules::Outcomes;

// One more status, the newest. The stack is lent where it lies.
pub fn push_status(mut o: Outcomes, v: u8) -> Outcomes
    requires { Room o.statuses }
    ensures { Reported result (with_statuses (added v (stack o.statuses)) (reports_of o)) }
{
    statuses::push(&mut o.statuses, v);
    o
}

// A status is reported. The push that fills the stack adds 04h and turns the transmitter off.
pub fn report(o: Outcomes, v: u8) -> Outcomes
    requires { Stacked o × (v ≤ 251) }
    ensures { Reported result (push v (reports_of o)) }
{
    if o.statuses.count < 30 {
        return push_status(o, v);
    }
    if o.statuses.count < 31 {
        let mut full = push_status(o, v + 4);
        full.sender.on = false;
        return full;
    }
    o
}

// The status of 16 collisions.
pub fn collision_status(wanted: bool) -> u8
    ensures { (result ≡ cond wanted 200 136) × (result ≤ 251) }
{
    if wanted { 200 } else { 136 }
}
