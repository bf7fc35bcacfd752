// The fetch of a good frame, an item of a service.
ghost use Rattle.std.specs.Prelude.{◌≤◌, length};
ghost use Rattle.card_rules.specs.Access.{WriteWord, access};
ghost use Rattle.card_rules.specs.View.{view, Sound, Stands};
ghost use Rattle.driver_rules.specs.Registers.{command_port, rx_discard};
ghost use Rattle.driver_rules.specs.Talk.{run};
ghost use Rattle.driver_rules.specs.Items.{fetch_talk};
ghost use Rattle.driver_rules.specs.Meets.{Ready, Ended, Read};
ghost use Rattle.driver_rules.specs.Serves.{Unmoved};

use crate::telling;
use card_rules::Card;
use driver_rules::{Driver, Item, Served};
use judge::sizes;

// The n bytes of the oldest frame, into the front of `area`.
fn read_frame(ram: &[u8], dir: &[u16], c: Card, area: &mut [u8], n: usize) -> Card
    requires { Sound c ram.now dir.now × ((n ≤ 1514) × (n ≤ length area.old)) }
    ensures { Read n (view c ram.now dir.now) result ram.now dir.now area.old area.new }
{
    let mut at = c;
    for i in 0..n.div_ceil(2) {
        let w = steps::read_word(ram, dir, at, driver_rules::DATA);
        at = w.card;
        area[2 * i] = (w.value % 256) as u8;
        if 2 * i + 1 < n {
            area[2 * i + 1] = (w.value / 256) as u8;
        }
    }
    at
}

// RX Discard: the oldest frame leaves the card.
pub fn discard(ram: &mut [u8], dir: &mut [u16], c: Card) -> Card
    requires { Sound c ram.old dir.old }
    ensures { Stands result ram.new dir.new (access (WriteWord command_port rx_discard) (view c ram.old dir.old)).adapter }
{
    steps::write_word(ram, dir, c, driver_rules::STATUS, driver_rules::RX_DISCARD)
}

// A good frame of n bytes: its words and the discard, if there are accesses left for them.
pub fn fetch(
    ram: &mut [u8],
    dir: &mut [u16],
    c: Card,
    d: Driver,
    look: &mut [u8],
    frame: &mut [u8],
    left: usize,
    n: usize,
) -> Served
    requires { Ready c ram.old dir.old look.old frame.old × (n ≤ 1514) }
    ensures { Ended left (run (fetch_talk left d n) (view c ram.old dir.old)) result (view result.card ram.new dir.new) look.old frame.old look.new frame.new × (Sound result.card ram.new dir.new × Unmoved (run (fetch_talk left d n) (view c ram.old dir.old)) c result.card ram.old dir.old ram.new dir.new) }
{
    let cost = n.div_ceil(2) + 1;
    if left < cost {
        return telling::short(c, d, left);
    }
    // The area is not chosen before one call: the check does not cover a `&mut` that is moved and then lent.
    let read = if n <= sizes::LOOKAHEAD_AREA {
        read_frame(ram, dir, c, look, n)
    } else {
        read_frame(ram, dir, c, frame, n)
    };
    let end = discard(ram, dir, read);
    telling::ended(end, d, Ok(Item::Frame(n)), left - cost)
}
