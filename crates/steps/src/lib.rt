#![tactic(auto)]
// The card's steps, without tests: what the public calls and the driver take for each access and event.
ghost use Rattle.std.specs.Prelude.{◌≡◌, true, ◌%◌, ◌≤◌, ◌<◌, length};
ghost use Rattle.port_rules.specs.Sound.{id_sound};
ghost use Rattle.transmit_rules.specs.Leave.{told_of};
ghost use Rattle.transmit_rules.specs.QueueView.{Tells};
ghost use Rattle.card_rules.specs.View.{view, Sound, Stands};
ghost use Rattle.card_rules.specs.Access.{access, ReadWord, ReadByte, WriteWord, WriteByte};
ghost use Rattle.card_rules.specs.Event.{wire_start, wire_byte, wire_end, success as success_of, collisions as collisions_of, seat as seat_of};
ghost use Rattle.card_rules.specs.Gives.{Gives};

use card_rules::{Card, Gone, Got};
use port_rules::IdState;
use regs::Seen;

mod effects; // effects.rt: what a step of the card does before it is settled, where that is more than a call
mod seating; // seating.rt: an ID state, as the ID port left it, becomes the card's own

// The host reads a word at an even offset.
pub fn read_word(ram: &[u8], dir: &[u16], c: Card, o: u16) -> Got
    requires { Sound c ram.now dir.now × (o % 2 ≡ 0) }
    ensures { Gives result.card result.value ram.now dir.now (access (ReadWord o) (view c ram.now dir.now)) }
{
    if !c.id.active {
        return Got {
            card: c,
            value: 65535,
        };
    }
    if (o < 4) & (c.select.window == 1) {
        let got = effects::take_word(ram, dir, c);
        return Got {
            card: regs::settle(ram, dir, got.card),
            value: got.value,
        };
    }
    Got {
        card: c,
        value: window_read::word_at(&Seen { ram, dir, card: &c }, o),
    }
}

// The host reads a byte. (A byte of the data port is no access of the card's.)
pub fn read_byte(ram: &[u8], dir: &[u16], c: Card, o: u16) -> Got
    requires { Sound c ram.now dir.now × (c.select.window ≡ 1 → 4 ≤ o) }
    ensures { Gives result.card result.value ram.now dir.now (access (ReadByte o) (view c ram.now dir.now)) }
{
    if !c.id.active {
        return Got {
            card: c,
            value: 255,
        };
    }
    let seen = Seen { ram, dir, card: &c };
    if o % 2 == 0 {
        return Got {
            card: c,
            value: window_read::word_at(&seen, o) % 256,
        };
    }
    Got {
        card: c,
        value: window_read::word_at(&seen, o - 1) / 256,
    }
}

// The host writes a word at an even offset.
pub fn write_word(ram: &mut [u8], dir: &mut [u16], c: Card, o: u16, v: u16) -> Card
    requires { Sound c ram.old dir.old × (o % 2 ≡ 0) }
    ensures { Stands result ram.new dir.new (access (WriteWord o v) (view c ram.old dir.old)).adapter }
{
    if !c.id.active {
        return c;
    }
    let with_word = effects::write_word(ram, dir, c, o, v);
    regs::settle(ram, dir, with_word)
}

// The host writes a byte.
pub fn write_byte(ram: &mut [u8], dir: &mut [u16], c: Card, o: u16, v: u8) -> Card
    requires { Sound c ram.old dir.old }
    ensures { Stands result ram.new dir.new (access (WriteByte o v) (view c ram.old dir.old)).adapter }
{
    if !c.id.active {
        return c;
    }
    let with_byte = effects::write_byte(ram, dir, c, o, v);
    regs::settle(ram, dir, with_byte)
}

// The wire starts a frame with its first 8 bytes.
pub fn wire_start(ram: &mut [u8], dir: &mut [u16], c: Card, first: [u8; 8]) -> Card
    requires { Sound c ram.old dir.old × (c.receive.receiver.wire ≡ 0) }
    ensures { Stands result ram.new dir.new (wire_start first (view c ram.old dir.old)) }
{
    let started = effects::wire_start(ram, dir, c, first);
    regs::settle(ram, dir, started)
}

// The wire brings a byte.
pub fn wire_byte(ram: &mut [u8], dir: &mut [u16], c: Card, b: u8) -> Card
    requires { Sound c ram.old dir.old }
    ensures { Stands result ram.new dir.new (wire_byte b (view c ram.old dir.old)) }
{
    receive::wire_byte(ram, dir, regs::rx_size(c.config.second), c.receive, b);
    regs::settle(ram, dir, c)
}

// The wire ends the frame, with its two flags.
pub fn wire_end(ram: &mut [u8], dir: &mut [u16], c: Card, check: bool, alignment: bool) -> Card
    requires { Sound c ram.old dir.old }
    ensures { Stands result ram.new dir.new (wire_end check alignment (view c ram.old dir.old)) }
{
    let ended = effects::wire_end(ram, dir, c, check, alignment);
    regs::settle(ram, dir, ended)
}

// A send outcome: success. The first `n` bytes of `out` are what the wire is told.
pub fn success(ram: &mut [u8], dir: &mut [u16], c: Card, out: &mut [u8]) -> Gone
    requires { Sound c ram.old dir.old × (0 < c.transmit.fifo.packets) × (1792 ≤ length out.old) }
    ensures stands { Stands result.card ram.new dir.new (success_of (view c ram.old dir.old)) }
    ensures tells { Tells result.n out.old out.new (told_of (view c ram.old dir.old).tx.queue.packets) }
{
    let gone = effects::success(ram, dir, c, out);
    Gone {
        card: regs::settle(ram, dir, gone.card),
        n: gone.n,
    }
}

// A send outcome: 16 collisions.
pub fn collisions(ram: &mut [u8], dir: &mut [u16], c: Card) -> Card
    requires { Sound c ram.old dir.old × (0 < c.transmit.fifo.packets) }
    ensures { Stands result ram.new dir.new (collisions_of (view c ram.old dir.old)) }
{
    let collided = effects::collisions(ram, dir, c);
    regs::settle(ram, dir, collided)
}

// An ID state is seated as the card's own.
pub fn seat(ram: &[u8], dir: &[u16], c: Card, i: IdState) -> Card
    requires { Sound c ram.now dir.now × (id_sound i ≡ true) }
    ensures { Stands result ram.now dir.now (seat_of i (view c ram.now dir.now)) }
{
    let seated = seating::seat(c, i);
    regs::settle(ram, dir, seated)
}
