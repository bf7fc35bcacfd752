#![tactic(auto)]
// The bench's state: what a script works on, and how a line is answered.
use bench_rules::Reply;
use card_rules::Card;
use driver_rules::Driver;
use hex_text::Text;
use port_rules::IdState;
use refusal::Refusal;

mod cards; // cards.rt: a new card, and another on the ID port
pub mod lines; // lines.rt: parts of a line, and a line as far as it was read

pub use cards::{join, power};

// The bench's own card with its memory, its driver, and the other cards on the ID port: the first `others` of `joined`.
#[derive(Clone, Copy)]
pub struct Bench {
    pub ram: [u8; 8192],
    pub dir: [u16; 1110],
    pub card: Card,
    pub driver: Driver,
    pub joined: [IdState; 8],
    pub others: usize,
}

impl Bench {
    // A power-on card of these words, an unopened driver, no other cards.
    pub fn new(words: [u16; 64]) -> Bench {
        Bench {
            ram: [0; 8192],
            dir: [0; 1110],
            card: card::power_on(words),
            driver: closed(),
            joined: [idport::fresh(words); 8],
            others: 0,
        }
    }

    // The same again, with other words; the memory is left as it is.
    pub fn restart(&mut self, words: [u16; 64]) {
        self.card = card::power_on(words);
        self.driver = closed();
        self.joined = [idport::fresh(words); 8];
        self.others = 0;
    }
}

fn closed() -> Driver {
    Driver {
        opened: false,
        sent: 0,
        unreported: 0,
        error: false,
    }
}

// A reply without bytes.
pub fn plain(text: &mut Text, reply: Reply) {
    answers::say(text, reply, &[], [0; 7]);
}

pub fn refused(why: Refusal) -> Reply {
    Reply::Refused(refusal::number(why))
}

// The reply to a call: what its answer tells, or that it was refused.
pub fn told<T, F: FnOnce(T) -> Reply>(answer: Result<T, Refusal>, tells: F) -> Reply
    requires { F.IsAlwaysCallable tells }
{
    match answer {
        Ok(value) => tells(value),
        Err(why) => refused(why),
    }
}

// A call that tells nothing.
pub fn done(text: &mut Text, answer: Result<(), Refusal>) {
    plain(text, told(answer, |_| Reply::Ok));
}
