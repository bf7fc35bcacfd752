#![tactic(auto)]
// The commands of the Command register.
ghost use Rattle.std.specs.Prelude.{true};
ghost use Rattle.transmit_rules.specs.OutcomesView.{Stacked};
ghost use Rattle.card_rules.specs.View.{view, Sound, Is, Does};
ghost use Rattle.card_rules.specs.Command.{act as act_of, discard as discard_of, command as command_of, commanded as commanded_of};

use card_rules::Card;
use transmit::outcomes;

mod acts; // acts.rt: what each command does

// The numbers of the commands: bits 15 to 11 of the Command register.
const GLOBAL_RESET: u16 = 0;

const SELECT_WINDOW: u16 = 1;

const RX_DISABLE: u16 = 3;

const RX_ENABLE: u16 = 4;

const RX_RESET: u16 = 5;

const RX_DISCARD: u16 = 8;

const TX_ENABLE: u16 = 9;

const TX_DISABLE: u16 = 10;

const TX_RESET: u16 = 11;

const REQUEST_INTERRUPT: u16 = 12;

const ACKNOWLEDGE: u16 = 13;

const INTERRUPT_MASK: u16 = 14;

const READ_ZERO: u16 = 15;

const RX_FILTER: u16 = 16;

const RX_EARLY: u16 = 17;

const TX_AVAILABLE: u16 = 18;

const TX_START: u16 = 19;

// The commands that touch registers alone.
fn act(c: Card, n: u16, x: u16) -> Card
    requires { Stacked c.transmit.outcomes }
    ensures { Does c result (act_of n x) }
{
    let o = c.transmit.outcomes;
    match n {
        GLOBAL_RESET => regs::reset(c),
        SELECT_WINDOW => acts::select_window(c, x),
        RX_DISABLE => acts::receive_on(c, false),
        RX_ENABLE => acts::receive_on(c, true),
        RX_RESET => acts::rx_reset(c),
        TX_ENABLE => acts::with_outcomes(c, outcomes::enable(o)),
        TX_DISABLE => acts::with_outcomes(c, outcomes::disable(o)),
        TX_RESET => acts::tx_reset(c),
        REQUEST_INTERRUPT => acts::request(c),
        ACKNOWLEDGE => acts::acknowledge(c, x),
        INTERRUPT_MASK => acts::set_mask(c, x),
        READ_ZERO => acts::set_zero(c, x),
        RX_FILTER => acts::set_filter(c, x),
        RX_EARLY => acts::set_early(c, x),
        TX_AVAILABLE => acts::with_outcomes(c, outcomes::set_level(o, x)),
        TX_START => acts::with_outcomes(c, outcomes::set_start(o, x)),
        _ => c,
    }
}

// RX Discard.
fn discard(ram: &mut [u8], dir: &mut [u16], c: Card) -> Card
    requires { Sound c ram.old dir.old }
    ensures { Is result ram.new dir.new (discard_of (view c ram.old dir.old)) }
{
    Card {
        receive: receive::discard(ram, dir, regs::rx_size(c.config.second), c.receive),
        ..c
    }
}

// The command of a number, with its argument.
fn command(ram: &mut [u8], dir: &mut [u16], c: Card, n: u16, x: u16) -> Card
    requires { Sound c ram.old dir.old }
    ensures { Is result ram.new dir.new (command_of n x (view c ram.old dir.old)) }
{
    if n == RX_DISCARD {
        return discard(ram, dir, c);
    }
    act(c, n, x)
}

// A write of the Command register. In window 0 only Select Window acts.
pub fn commanded(ram: &mut [u8], dir: &mut [u16], c: Card, v: u16) -> Card
    requires { Sound c ram.old dir.old }
    ensures { Is result ram.new dir.new (commanded_of v (view c ram.old dir.old)) }
{
    let n = v / 2048;
    if (n != SELECT_WINDOW) & (c.select.window == 0) {
        return c;
    }
    command(ram, dir, c, n, v % 2048)
}
