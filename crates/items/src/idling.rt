// Idle, an item of a service.
ghost use Rattle.card_rules.specs.View.{view, Sound};
ghost use Rattle.driver_rules.specs.Talk.{run};
ghost use Rattle.driver_rules.specs.Items.{idle_talk};
ghost use Rattle.driver_rules.specs.Meets.{Tells};
ghost use Rattle.driver_rules.specs.Serves.{Unmoved};

use crate::telling;
use card_rules::Card;
use driver_rules::{Driver, Item, Served};

// Interrupt Latch, TX Available, RX Early and Interrupt Requested.
const ACKNOWLEDGED: u16 = 0x69;

// Neither TX Complete nor RX Complete: acknowledge and answer idle, with 1 left.
pub fn idle(ram: &mut [u8], dir: &mut [u16], c: Card, d: Driver, left: usize) -> Served
    requires { Sound c ram.old dir.old }
    ensures { Tells left (run (idle_talk left d) (view c ram.old dir.old)) result (view result.card ram.new dir.new) × (Sound result.card ram.new dir.new × Unmoved (run (idle_talk left d) (view c ram.old dir.old)) c result.card ram.old dir.old ram.new dir.new) }
{
    if left == 0 {
        return telling::short(c, d, left);
    }
    let end = steps::write_word(
        ram,
        dir,
        c,
        driver_rules::STATUS,
        driver_rules::ACKNOWLEDGE + ACKNOWLEDGED,
    );
    telling::ended(end, d, Ok(Item::Idle), left - 1)
}
