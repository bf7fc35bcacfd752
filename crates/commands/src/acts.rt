// What each command does to the card's registers.
ghost use Rattle.std.specs.Prelude.{◌≡◌, true, false, ◌%◌};
ghost use Rattle.receive_rules.specs.Update.{with_on, with_threshold};
ghost use Rattle.transmit_rules.specs.OutcomesView.{Stacked};
ghost use Rattle.card_rules.specs.Update.{select_window, select_mask, select_zero, select_filter, lines_requested};
ghost use Rattle.card_rules.specs.Groups.{card_select, card_lines, card_receiver, card_outcomes};
ghost use Rattle.card_rules.specs.View.{Does};
ghost use Rattle.card_rules.specs.Command.{mask as mask_of, early_threshold, rx_reset, tx_reset, acknowledge as acknowledge_of};

use card_rules::Card;
use transmit::outcomes;
use transmit_rules::{Fifo, Outcomes, Transmit};

// Select Window.
pub fn select_window(mut c: Card, x: u16) -> Card
    ensures { result ≡ card_select (select_window (x % 8) c.select) c }
{
    c.select.window = x % 8;
    c
}

// RX Disable and RX Enable.
pub fn receive_on(mut c: Card, on: bool) -> Card
    ensures { result ≡ card_receiver (with_on on c.receive.receiver) c }
{
    c.receive.receiver.on = on;
    c
}

// RX Reset.
pub fn rx_reset(mut c: Card) -> Card
    ensures { Does c result rx_reset }
{
    c.select.filter = 0;
    c.receive = regs::quiet(receive::deafen(c.receive.receiver.wire));
    c
}

// The card with other outcomes.
pub fn with_outcomes(mut c: Card, o: Outcomes) -> Card
    ensures { result ≡ card_outcomes o c }
{
    c.transmit.outcomes = o;
    c
}

// TX Reset.
pub fn tx_reset(mut c: Card) -> Card
    requires { Stacked c.transmit.outcomes }
    ensures { Does c result tx_reset }
{
    c.transmit = Transmit {
        fifo: Fifo::default(),
        outcomes: transmit::reset(c.transmit.outcomes),
    };
    c
}

// Request Interrupt.
pub fn request(mut c: Card) -> Card
    ensures { result ≡ card_lines (lines_requested true c.lines) c }
{
    c.lines.requested = true;
    c
}

// Acknowledge.
pub fn acknowledge(mut c: Card, x: u16) -> Card
    requires { Stacked c.transmit.outcomes }
    ensures { Does c result (acknowledge_of x) }
{
    c.lines.latch = !bits::has(x, 1) & c.lines.latch;
    c.lines.requested = !bits::has(x, 64) & c.lines.requested;
    c.receive.receiver.early = !bits::has(x, 32) & c.receive.receiver.early;
    c.transmit.outcomes = outcomes::acknowledge(c.transmit.outcomes, bits::has(x, 8));
    c
}

// The interrupt mask.
pub fn set_mask(mut c: Card, x: u16) -> Card
    ensures { result ≡ card_select (select_mask (mask_of x) c.select) c }
{
    c.select.mask = x % 256 / 2 * 2;
    c
}

// The Read Zero mask.
pub fn set_zero(mut c: Card, x: u16) -> Card
    ensures { result ≡ card_select (select_zero (mask_of x) c.select) c }
{
    c.select.zero = x % 256 / 2 * 2;
    c
}

// The RX filter.
pub fn set_filter(mut c: Card, x: u16) -> Card
    ensures { result ≡ card_select (select_filter (x % 16) c.select) c }
{
    c.select.filter = x % 16;
    c
}

// RX Early: an argument below the least is stored as the least.
pub fn set_early(mut c: Card, x: u16) -> Card
    ensures { result ≡ card_receiver (with_threshold (early_threshold x) c.receive.receiver) c }
{
    c.receive.receiver.threshold = x.max(receive::EARLY_LEAST);
    c
}
