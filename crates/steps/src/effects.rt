// What a step of the card does before it is settled, where that is more than a call.
ghost use Rattle.std.specs.Prelude.{◌≡◌, ◌%◌, ◌≤◌, ◌<◌, length};
ghost use Rattle.receive_rules.specs.Wire as wire;
ghost use Rattle.receive_rules.specs.Reading.{data_word, after_read};
ghost use Rattle.transmit_rules.specs.Leave.{told_of};
ghost use Rattle.transmit_rules.specs.QueueView.{Tells};
ghost use Rattle.transmit_rules.specs.Tx as tx;
ghost use Rattle.card_rules.specs.Update.{with_rx, with_tx, lines_low};
ghost use Rattle.card_rules.specs.Groups.{card_lines};
ghost use Rattle.card_rules.specs.View.{rx_size_of, view, Sound, Is};
ghost use Rattle.card_rules.specs.Write.{write_word, write_byte, executed};
ghost use Rattle.card_rules.specs.Effect.{taken as taken_of};

use card_rules::{Card, Gone, Got, Lanes};

// A word of the data port.
pub fn take_word(ram: &[u8], dir: &[u16], c: Card) -> Got
    requires { Sound c ram.now dir.now }
    ensures value_value { result.value ≡ data_word (view c ram.now dir.now).rx }
    ensures is { Is result.card ram.now dir.now (with_rx (after_read (view c ram.now dir.now).rx) (view c ram.now dir.now)) }
{
    let got = receive::read_data(ram, dir, regs::rx_size(c.config.second), c.receive);
    Got {
        card: Card {
            receive: got.receive,
            ..c
        },
        value: got.word,
    }
}

// A word written: a command at 0Eh, or a register.
pub fn write_word(ram: &mut [u8], dir: &mut [u16], c: Card, o: u16, v: u16) -> Card
    requires { Sound c ram.old dir.old × (o % 2 ≡ 0) }
    ensures { Is result ram.new dir.new (write_word o v (view c ram.old dir.old)) }
{
    if o == 0x0e {
        return commands::commanded(ram, dir, c, v);
    }
    window_write::write(ram, dir, c, Lanes::Both, o, v)
}

// The low byte of a command is held.
fn hold(mut c: Card, v: u8) -> Card
    ensures { result ≡ card_lines (lines_low v c.lines) c }
{
    c.lines.low = v;
    c
}

// The high byte of a command: with the byte held it executes, and the held byte is 0 again.
fn execute(ram: &mut [u8], dir: &mut [u16], c: Card, v: u8) -> Card
    requires { Sound c ram.old dir.old }
    ensures { Is result ram.new dir.new (executed v (view c ram.old dir.old)) }
{
    let word = bits::pair(v, c.lines.low);
    commands::commanded(ram, dir, hold(c, 0), word)
}

// A byte written.
pub fn write_byte(ram: &mut [u8], dir: &mut [u16], c: Card, o: u16, v: u8) -> Card
    requires { Sound c ram.old dir.old }
    ensures { Is result ram.new dir.new (write_byte o v (view c ram.old dir.old)) }
{
    if o == 0x0e {
        return hold(c, v);
    }
    if o == 0x0f {
        return execute(ram, dir, c, v);
    }
    let w = bits::wide(v);
    if o % 2 == 0 {
        return window_write::write(ram, dir, c, Lanes::Low, o, w);
    }
    window_write::write(ram, dir, c, Lanes::High, o - 1, w)
}

// A frame starts.
pub fn wire_start(ram: &mut [u8], dir: &mut [u16], c: Card, first: [u8; 8]) -> Card
    requires { Sound c ram.old dir.old × (c.receive.receiver.wire ≡ 0) }
    ensures { Is result ram.new dir.new (with_rx (wire.wire_start (rx_size_of c) (taken_of first (view c ram.old dir.old)) first (view c ram.old dir.old).rx) (view c ram.old dir.old)) }
{
    let taken = c.id.active & receive::passes_filter(c.select.filter, c.config.station, first);
    let receive = receive::wire_start(
        ram,
        dir,
        regs::rx_size(c.config.second),
        c.receive,
        taken,
        first,
    );
    Card { receive, ..c }
}

// The frame ends.
pub fn wire_end(ram: &mut [u8], dir: &mut [u16], c: Card, check: bool, alignment: bool) -> Card
    requires { Sound c ram.old dir.old }
    ensures { Is result ram.new dir.new (with_rx (wire.wire_end check alignment (view c ram.old dir.old).rx) (view c ram.old dir.old)) }
{
    let receive = receive::wire_end(
        ram,
        dir,
        regs::rx_size(c.config.second),
        c.receive,
        check,
        alignment,
    );
    Card { receive, ..c }
}

// The oldest packet goes out.
pub fn success(ram: &mut [u8], dir: &mut [u16], c: Card, out: &mut [u8]) -> Gone
    requires { Sound c ram.old dir.old × (0 < c.transmit.fifo.packets) × (1792 ≤ length out.old) }
    ensures is { Is result.card ram.new dir.new (with_tx (tx.success (view c ram.old dir.old).tx) (view c ram.old dir.old)) }
    ensures tells { Tells result.n out.old out.new (told_of (view c ram.old dir.old).tx.queue.packets) }
{
    let gone = transmit::success(ram, dir, regs::tx_size(c.config.second), c.transmit, out);
    Gone {
        card: Card {
            transmit: gone.transmit,
            ..c
        },
        n: gone.n,
    }
}

// The oldest packet is lost to 16 collisions.
pub fn collisions(ram: &mut [u8], dir: &mut [u16], c: Card) -> Card
    requires { Sound c ram.old dir.old × (0 < c.transmit.fifo.packets) }
    ensures { Is result ram.new dir.new (with_tx (tx.collisions (view c ram.old dir.old).tx) (view c ram.old dir.old)) }
{
    let transmit = transmit::collisions(ram, dir, regs::tx_size(c.config.second), c.transmit);
    Card { transmit, ..c }
}
