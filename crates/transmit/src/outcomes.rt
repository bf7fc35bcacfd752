// The sender's registers and the TX status stack: what send outcomes report, and the commands that turn the transmitter on and off.
ghost use Rattle.std.specs.Prelude.{◌≡◌};
ghost use Rattle.transmit_rules.specs.Outcome as outcome;
ghost use Rattle.transmit_rules.specs.OutcomesView.{stack as stack_of, reports_of, Stacked, Reported, sound_outcomes};

use crate::{stack, statuses};
use transmit_rules::{Outcomes, Sender, Statuses};

// The TX Available and TX Start thresholds at power-on and reset: above every count, so that they are disabled.
const THRESHOLD_DEFAULT: u16 = 2044;

// Power-on.
pub fn fresh() -> Outcomes
    ensures { Reported result outcome.at_power_on }
{
    Outcomes {
        sender: Sender {
            on: false,
            available: false,
            level: THRESHOLD_DEFAULT,
            start: THRESHOLD_DEFAULT,
        },
        statuses: Statuses {
            entries: [0; 31],
            count: 0,
        },
    }
}

// The test that a call makes of what it is handed.
pub fn outcomes_sound(o: Outcomes) -> bool
    ensures { result ≡ sound_outcomes o }
{
    let n = o.statuses.count;
    let s = o.sender;
    (n <= 31) & ((n < 31) | !s.on) & (s.level <= 2047) & (s.start <= 2047)
}

// TX Status: the oldest status, 00h where there is none.
pub fn top_status(o: Outcomes) -> u8
    requires { Stacked o }
    ensures { result ≡ outcome.top (stack_of o.statuses) }
{
    if o.statuses.count == 0 {
        return 0;
    }
    o.statuses.entries[0]
}

// TX Complete: a status stands.
pub fn has_status(o: Outcomes) -> bool
    requires { Stacked o }
    ensures { result ≡ outcome.some (stack_of o.statuses) }
{
    0 < o.statuses.count
}

// A write to TX Status: the oldest status goes. The stack is lent where it lies.
pub fn pop_status(mut o: Outcomes) -> Outcomes
    requires { Stacked o }
    ensures { Reported result (outcome.pop (reports_of o)) }
{
    statuses::pop(&mut o.statuses);
    o
}

// What a success reports; `wanted` is bit 15 of the packet's preamble.
pub fn success(o: Outcomes, wanted: bool) -> Outcomes
    requires { Stacked o }
    ensures { Reported result (outcome.succeeded wanted (reports_of o)) }
{
    if wanted {
        return stack::report(o, 192);
    }
    o
}

// What 16 collisions report: the transmitter is off then.
pub fn collisions(o: Outcomes, wanted: bool) -> Outcomes
    requires { Stacked o }
    ensures { Reported result (outcome.collided wanted (reports_of o)) }
{
    let mut o = stack::report(o, stack::collision_status(wanted));
    o.sender.on = false;
    o
}

// TX Enable: nothing while the stack is full.
pub fn enable(mut o: Outcomes) -> Outcomes
    requires { Stacked o }
    ensures { Reported result (outcome.enable (reports_of o)) }
{
    o.sender.on |= o.statuses.count < 31;
    o
}

// TX Disable.
pub fn disable(mut o: Outcomes) -> Outcomes
    requires { Stacked o }
    ensures { Reported result (outcome.off (reports_of o)) }
{
    o.sender.on = false;
    o
}

// TX Reset: the transmitter is off, both thresholds are the defaults, and the statuses stay.
pub fn reset(mut o: Outcomes) -> Outcomes
    requires { Stacked o }
    ensures { Reported result (outcome.reset (reports_of o)) }
{
    o.sender.on = false;
    o.sender.level = THRESHOLD_DEFAULT;
    o.sender.start = THRESHOLD_DEFAULT;
    o
}

// The TX Available threshold.
pub fn set_level(mut o: Outcomes, n: u16) -> Outcomes
    requires { Stacked o }
    ensures { Reported result (outcome.set_level n (reports_of o)) }
{
    o.sender.level = n / 4 * 4;
    o
}

// The TX Start threshold.
pub fn set_start(mut o: Outcomes, n: u16) -> Outcomes
    requires { Stacked o }
    ensures { Reported result (outcome.set_start n (reports_of o)) }
{
    o.sender.start = n / 4 * 4;
    o
}

// Acknowledging TX Available, where it is named: while set it is cleared, and the threshold is disabled.
pub fn acknowledge(mut o: Outcomes, named: bool) -> Outcomes
    requires { Stacked o }
    ensures { Reported result (outcome.acknowledge named (reports_of o)) }
{
    if named & o.sender.available {
        o.sender.available = false;
        o.sender.level = THRESHOLD_DEFAULT;
        return o;
    }
    o
}

// TX Available, when `free` is TX Free.
pub fn settle_available(mut o: Outcomes, free: usize) -> Outcomes
    requires { Stacked o }
    ensures { Reported result (outcome.settle_available free (reports_of o)) }
{
    let level = o.sender.level as usize;
    o.sender.available = ((level <= 1792) & (level < free)) | o.sender.available;
    o
}

// TX Available stands if it is due, when `free` is TX Free.
pub fn is_settled(o: Outcomes, free: usize) -> bool
    ensures { result ≡ outcome.available_settled free o.sender }
{
    let s = o.sender;
    let level = s.level as usize;
    s.available | !((level <= 1792) & (level < free))
}
