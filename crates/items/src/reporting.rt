// The report of a packet, an item of a service.
ghost use Rattle.card_rules.specs.View.{view, Sound};
ghost use Rattle.driver_rules.specs.Talk.{run};
ghost use Rattle.driver_rules.specs.Items.{report_talk};
ghost use Rattle.driver_rules.specs.Meets.{Tells};
ghost use Rattle.driver_rules.specs.Serves.{Unmoved};

use crate::telling;
use card_rules::Card;
use driver_rules::{Driver, Served};

// The report of the oldest status, with 4 left. TX Enable only where no status is left: an error must not be passed over.
pub fn report(ram: &mut [u8], dir: &mut [u16], c: Card, d: Driver, left: usize) -> Served
    requires { Sound c ram.old dir.old }
    ensures { Tells left (run (report_talk left d) (view c ram.old dir.old)) result (view result.card ram.new dir.new) × (Sound result.card ram.new dir.new × Unmoved (run (report_talk left d) (view c ram.old dir.old)) c result.card ram.old dir.old ram.new dir.new) }
{
    if left < 4 {
        return telling::short(c, d, left);
    }
    let first = steps::read_byte(ram, dir, c, driver_rules::TX_STATUS);
    let status = first.value;
    let popped = steps::write_byte(ram, dir, first.card, driver_rules::TX_STATUS, 0);
    let second = steps::read_byte(ram, dir, popped, driver_rules::TX_STATUS);
    let last = second.card;
    let wrong = d.error | (0 < status / 4 % 16);
    if wrong & (second.value == 0) {
        let on = steps::write_word(
            ram,
            dir,
            last,
            driver_rules::STATUS,
            driver_rules::TX_ENABLE,
        );
        return telling::told(on, telling::with_error(d, false), status, left - 4);
    }
    telling::told(last, telling::with_error(d, wrong), status, left - 3)
}
