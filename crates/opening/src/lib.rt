#![tactic(auto)]
// Opening: the station address, the filter and masks, and both enables.
ghost use Rattle.std.specs.Prelude.{◌≤◌, map};
ghost use Rattle.card_rules.specs.View.{view, Sound, Stands};
ghost use Rattle.driver_rules.specs.Talk.{run, after};
ghost use Rattle.driver_rules.specs.Open.{command, pair_writes, address_writes, open_talk};
ghost use Rattle.driver_rules.specs.Opens.{Opens};

use card_rules::Card;
use driver_rules::{After, Driver};

// Two address bytes of a word, high byte first.
fn write_pair(ram: &mut [u8], dir: &mut [u16], c: Card, o: u16, w: u16) -> Card
    requires { Sound c ram.old dir.old × (o ≤ 4) }
    ensures { Stands result ram.new dir.new (after (pair_writes o w) (view c ram.old dir.old)) }
{
    let [high, low] = w.to_be_bytes();
    let first = steps::write_byte(ram, dir, c, o, high);
    steps::write_byte(ram, dir, first, o + 1, low)
}

// Commands, in order.
fn order(ram: &mut [u8], dir: &mut [u16], c: Card, commands: &[u16]) -> Card
    requires { Sound c ram.old dir.old }
    ensures { Stands result ram.new dir.new (after (map command commands.now) (view c ram.old dir.old)) }
{
    let mut at = c;
    for command in commands {
        at = steps::write_word(ram, dir, at, driver_rules::STATUS, *command);
    }
    at
}

// Window 2, and the six address bytes.
fn write_address(ram: &mut [u8], dir: &mut [u16], c: Card, w0: u16, w1: u16, w2: u16) -> Card
    requires { Sound c ram.old dir.old }
    ensures { Stands result ram.new dir.new (after (address_writes w0 w1 w2) (view c ram.old dir.old)) }
{
    let two = order(ram, dir, c, &[driver_rules::SELECT_WINDOW + 2]);
    let first = write_pair(ram, dir, two, 0, w0);
    let second = write_pair(ram, dir, first, 2, w1);
    write_pair(ram, dir, second, 4, w2)
}

// The address; window 1, filter 5 and Read Zero FFh; interrupt mask 0, RX Enable and TX Enable.
pub fn open(
    ram: &mut [u8],
    dir: &mut [u16],
    c: Card,
    d: Driver,
    w0: u16,
    w1: u16,
    w2: u16,
) -> After<()>
    requires { Sound c ram.old dir.old }
    ensures { Opens (run (open_talk d w0 w1 w2) (view c ram.old dir.old)) c ram.old dir.old result ram.new dir.new }
{
    let addressed = write_address(ram, dir, c, w0, w1, w2);
    let masked = order(
        ram,
        dir,
        addressed,
        &[
            driver_rules::SELECT_WINDOW + 1,
            driver_rules::RX_FILTER + 5,
            driver_rules::READ_ZERO + 0xff,
        ],
    );
    let end = order(
        ram,
        dir,
        masked,
        &[
            driver_rules::INTERRUPT_MASK,
            driver_rules::RX_ENABLE,
            driver_rules::TX_ENABLE,
        ],
    );
    After {
        card: end,
        driver: Driver {
            opened: true,
            error: false,
            ..d
        },
        answer: Ok(()),
    }
}
