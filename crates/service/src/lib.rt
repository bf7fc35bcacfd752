#![tactic(auto)]
// Look, receive, and look again, until an item is found, the budget is short, or so many turns were taken.
ghost use Rattle.card_rules.specs.View.{view, Sound};
ghost use Rattle.driver_rules.specs.Talk.{run};
ghost use Rattle.driver_rules.specs.Meets.{Ready};
ghost use Rattle.driver_rules.specs.Service.{look_talk, receive_talk};
ghost use Rattle.driver_rules.specs.Serves.{Meets, Unmoved};

use card_rules::Card;
use driver_rules::{Driver, Served};
use refusal::Refusal;

pub mod serving; // serving.rt: a whole service: look and receive, begun again where they paused, until an item is found or the budget is short

pub use serving::serve;

// Memory, card and driver stay apart and are no struct: each step of the card lends the memory alone, so that a struct would be taken apart and put together again at each call.
// Status is read, and the first item that stands is done: TX Complete, else RX Complete, else idle.
// The read leaves the card as it came, so c itself is handed on: refused, the call hands back the very card.
#[cycle(look_receive)]
pub fn look(
    ram: &mut [u8],
    dir: &mut [u16],
    c: Card,
    d: Driver,
    ahead: &mut [u8],
    frame: &mut [u8],
    left: usize,
    turns: usize,
) -> Served
    requires { Ready c ram.old dir.old ahead.old frame.old }
    ensures { Meets result.answer left (run (look_talk left d) (view c ram.old dir.old)) result (view result.card ram.new dir.new) ahead.old frame.old ahead.new frame.new × (Sound result.card ram.new dir.new × Unmoved (run (look_talk left d) (view c ram.old dir.old)) c result.card ram.old dir.old ram.new dir.new) }
{
    if left == 0 {
        return items::short(c, d, 0);
    }
    let got = steps::read_word(ram, dir, c, driver_rules::STATUS);
    let status = got.value;
    if judge::is_unfit(status) {
        return items::ended(c, d, Err(Refusal::CardUnfit), left - 1);
    }
    if judge::is_tx_complete(status) {
        return items::report(ram, dir, c, d, left - 1);
    }
    if judge::is_rx_complete(status) {
        return receive(ram, dir, c, d, ahead, frame, left - 1, turns);
    }
    items::idle(ram, dir, c, d, left - 1)
}

// The oldest frame is complete: a good one is fetched, any other discarded, and the pass looks again from the start.
// Reading RX Status leaves the card as it came, too.
#[cycle(look_receive)]
fn receive(
    ram: &mut [u8],
    dir: &mut [u16],
    c: Card,
    d: Driver,
    ahead: &mut [u8],
    frame: &mut [u8],
    left: usize,
    turns: usize,
) -> Served
    requires { Ready c ram.old dir.old ahead.old frame.old }
    ensures { Meets result.answer left (run (receive_talk left d) (view c ram.old dir.old)) result (view result.card ram.new dir.new) ahead.old frame.old ahead.new frame.new × (Sound result.card ram.new dir.new × Unmoved (run (receive_talk left d) (view c ram.old dir.old)) c result.card ram.old dir.old ram.new dir.new) }
{
    if left == 0 {
        return items::short(c, d, 0);
    }
    let got = steps::read_word(ram, dir, c, driver_rules::RX_STATUS);
    let rx = got.value;
    if judge::is_bad(rx) {
        if left == 1 {
            return items::short(c, d, 0);
        }
        let dropped = items::discard(ram, dir, c);
        if turns == 0 {
            return Served {
                driver: d,
                card: dropped,
                answer: None,
                left: left - 2,
            };
        }
        return look(ram, dir, dropped, d, ahead, frame, left - 2, turns - 1);
    }
    items::fetch(ram, dir, c, d, ahead, frame, left - 1, judge::length(rx))
}
