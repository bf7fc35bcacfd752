// A whole service: look and receive, begun again where they paused, until an item is found or the budget is short.
ghost use Rattle.card_rules.specs.View.{view, Sound};
ghost use Rattle.driver_rules.specs.Talk.{run};
ghost use Rattle.driver_rules.specs.Meets.{Ready};
ghost use Rattle.driver_rules.specs.Service.{look_talk};
ghost use Rattle.driver_rules.specs.Serves.{Unmoved};
ghost use Rattle.driver_rules.specs.Serving.{Serves};

use card_rules::Card;
use driver_rules::{Driver, Serviced};

// The turns that look and receive take before they pause: they bound the stack.
const TURNS: usize = 256;

// A whole service: it goes on where look and receive paused.
pub fn serve(
    ram: &mut [u8],
    dir: &mut [u16],
    c: Card,
    d: Driver,
    ahead: &mut [u8],
    frame: &mut [u8],
    budget: usize,
) -> Serviced
    requires { Ready c ram.old dir.old ahead.old frame.old }
    ensures { Serves (run (look_talk budget d) (view c ram.old dir.old)) result (view result.card ram.new dir.new) ahead.old frame.old ahead.new frame.new × (Sound result.card ram.new dir.new × Unmoved (run (look_talk budget d) (view c ram.old dir.old)) c result.card ram.old dir.old ram.new dir.new) }
{
    let mut at = c;
    let mut driver = d;
    let mut left = budget;
    loop {
        let s = crate::look(ram, dir, at, driver, ahead, frame, left, TURNS);
        if let Some(answer) = s.answer {
            return Serviced {
                card: s.card,
                driver: s.driver,
                answer,
                used: budget - s.left,
            };
        }
        driver = s.driver;
        at = s.card;
        left = s.left;
    }
}
