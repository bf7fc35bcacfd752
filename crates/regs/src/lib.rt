#![tactic(auto)]
// The card by value: its registers in groups, the Status word, the interrupt line, RX Status and the unread bytes, settle, power-on, and the test of its soundness.
ghost use Rattle.std.specs.Prelude.{◌≡◌, true, List, ℕ, ◌%◌, ◌≤◌, ◌<◌, length};
ghost use Rattle.bits.specs.Bits.{weigh};
ghost use Rattle.card_rules.specs.Room.{tx_size, rx_size};
ghost use Rattle.receive_rules.specs.View as rx;
ghost use Rattle.card_rules.specs.Status.{shows, status_of, status_word, flags as flags_of, rises as rises_of, interrupting};
ghost use Rattle.card_rules.specs.Line.{is_line, interrupt_line};
ghost use Rattle.card_rules.specs.Settle.{settle as settle_of};
ghost use Rattle.receive_rules.specs.Reading.{rx_status, unread_in, rx_empty};
ghost use Rattle.card_rules.specs.Power.{power_on, reset as reset_of};
ghost use Rattle.card_rules.specs.Sound.{select_sound, kept};
ghost use Rattle.card_rules.specs.View.{rx_size_of, view, Held, Sound, Blank, Does, SettlesSides, Stands, sound_card};

use card_rules::{Card, Config, Flags, Lines, Prom, Select};
use receive_rules::{Receive, Receiver};
use std::marker::Model;
use transmit::outcomes;
use transmit_rules::{Fifo, Transmit};

// The bytes of the RAM.
const RAM: usize = 8192;

// The weight of the window in Status: it stands in bits 15 to 13.
const WINDOW: u16 = 8192;

// The weight of the IRQ field in Resource Configuration: it stands in bits 15 to 12.
const IRQ: u16 = 4096;

// A TX Available threshold above this one never sets the bit.
const HIGHEST: u16 = 1792;

// The transmitter's part of the RAM, by the second Internal Configuration word.
pub fn tx_size(second: u16) -> usize
    ensures { (result ≡ tx_size (second % 4)) × (result ≤ 4096) }
{
    match second % 4 {
        1 => 2048,
        2 => 4096,
        _ => 3072,
    }
}

// The receiver's part: the rest.
pub fn rx_size(second: u16) -> usize
    ensures { (result ≡ rx_size (second % 4)) × (result ≤ 6144) }
{
    RAM - tx_size(second)
}

// The weight of a flag, unless a 0 in the Read Zero mask hides it.
fn shown(zero: u16, weight: u16, flag: bool) -> u16
    requires { 0 < weight }
    ensures { (result ≡ weigh weight (shows weight zero flag)) × (result ≤ weight) }
{
    bits::weight_if(weight, bits::has(zero, weight) & flag)
}

// The Status word.
pub fn status_of(s: Select, f: Flags) -> u16
    requires { select_sound s ≡ true }
    ensures { result ≡ status_of s f }
{
    s.window * WINDOW
        + (bits::weight_if(1, f.latch)
            + shown(s.zero, 2, f.failed)
            + shown(s.zero, 4, f.completed)
            + shown(s.zero, 8, f.available)
            + shown(s.zero, 16, f.received)
            + shown(s.zero, 32, f.early)
            + shown(s.zero, 64, f.requested))
}

// Whether a flag is in the interrupt mask and visible.
fn rises(s: Select, weight: u16, flag: bool) -> bool
    requires { 0 < weight }
    ensures { result ≡ rises_of s weight flag }
{
    bits::has(s.mask, weight) & (bits::has(s.zero, weight) & flag)
}

// Whether a flag of bits 1 to 7 is visible and in the interrupt mask.
pub fn interrupts(s: Select, f: Flags) -> bool
    ensures { result ≡ interrupting s f }
{
    rises(s, 2, f.failed)
        | rises(s, 4, f.completed)
        | rises(s, 8, f.available)
        | rises(s, 16, f.received)
        | rises(s, 32, f.early)
        | rises(s, 64, f.requested)
}

// Whether the IRQ field names a line; any other value disables the drivers.
fn is_line(irq: u16) -> bool
    ensures { result ≡ is_line irq }
{
    matches!(irq, 3 | 5 | 7 | 9 | 10 | 11 | 12 | 15)
}

// The interrupt line that the card drives: the latch alone raises no line. 0 stands for none, as the public call's contract has it (`InterruptLine`).
pub fn interrupt_line(c: Card) -> u16
    ensures { (ram dir : List ℕ) → result ≡ interrupt_line (view c ram dir) }
{
    let irq = c.config.resource / IRQ % 16;
    let driving = c.config.enabled & ((c.select.window != 0) & is_line(irq));
    if c.lines.latch & driving {
        return irq;
    }
    0
}

// The masks, the window and the filter are in their ranges.
fn select_sound(s: Select) -> bool
    ensures { result ≡ select_sound s }
{
    (s.window <= 7)
        & (s.mask <= 254)
        & (s.mask % 2 == 0)
        & (s.zero <= 254)
        & (s.zero % 2 == 0)
        & (s.filter <= 15)
}

// The configuration registers at power-on: words 03h, 09h, 12h and 13h are loaded.
fn loaded(words: [u16; 64]) -> Config
    ensures { result ≡ (power_on words 0).config }
{
    Config {
        product: words[0x03],
        resource: words[0x09],
        enabled: false,
        first: words[0x12],
        second: words[0x13],
        station: [0; 6],
    }
}

// The receive side at power-on and after RX Reset: off and empty. `wire` is what the wire is doing.
pub fn quiet(wire: u8) -> Receive
    ensures { result ≡ record { receiver = (rx_empty wire).receiver; frames = 0 } }
{
    Receive {
        receiver: Receiver {
            on: false,
            failed: false,
            early: false,
            told: false,
            threshold: receive::EARLY_DEFAULT,
            read: 0,
            wire,
        },
        frames: 0,
    }
}

// Power-on with these EEPROM words; `wire` is what the wire is doing.
pub fn power_on(words: [u16; 64], wire: u8) -> Card
    ensures { Blank result (power_on words wire) }
{
    Card {
        id: idport::fresh(words),
        select: Select {
            window: 0,
            mask: 0,
            zero: 0,
            filter: 0,
        },
        lines: Lines {
            latch: false,
            requested: false,
            low: 0,
        },
        config: loaded(words),
        prom: Prom {
            last: 0,
            writable: false,
        },
        receive: quiet(wire),
        transmit: Transmit {
            fifo: Fifo::default(),
            outcomes: outcomes::fresh(),
        },
    }
}

// The flags of Status.
pub fn flags_of(ram: &[u8], dir: &[u16], c: Card) -> Flags
    requires { Held c ram.now dir.now × rx.Sound (rx_size_of c) c.receive ram.now dir.now }
    ensures { result ≡ flags_of (view c ram.now dir.now) }
{
    Flags {
        latch: c.lines.latch,
        failed: c.receive.receiver.failed | c.transmit.fifo.failed,
        completed: transmit::has_status(c.transmit.outcomes),
        available: c.transmit.outcomes.sender.available,
        received: receive::rx_complete(ram, dir, rx_size(c.config.second), c.receive),
        early: c.receive.receiver.early,
        requested: c.lines.requested,
    }
}

// A sound card with its memory, to read from. A contract sees the adapter that they are.
#[derive(Drop)]
pub struct Seen<'a> {
    pub ram: &'a [u8],
    pub dir: &'a [u16],
    pub card: &'a Card,
}

impl<'a> Model for Seen<'a> {
    ghost use Rattle.card_rules.specs.Adapter.{Adapter};
    ghost use Rattle.card_rules.specs.View.{view as shown, Sound};

    ghost Value = { Adapter };

    ghost view = { λ s. shown s.card.now s.ram.now s.dir.now };

    ghost invariant = { λ s. Sound s.card.now s.ram.now s.dir.now };
}

impl<'a> Seen<'a> {
    // The Status word.
    pub fn status_word(&self) -> u16
        ensures { result ≡ status_word self.now }
    {
        status_of(self.card.select, flags_of(self.ram, self.dir, *self.card))
    }

    // RX Status.
    pub fn rx_status(&self) -> u16
        ensures { result ≡ rx_status self.now.rx.receiver.read self.now.rx.frames }
    {
        receive::rx_status(
            self.ram,
            self.dir,
            rx_size(self.card.config.second),
            self.card.receive,
        )
    }

    // The unread bytes of the oldest frame.
    pub fn unread(&self) -> i16
        ensures { result ≡ unread_in self.now.rx.receiver.read self.now.rx.frames }
    {
        receive::unread(
            self.ram,
            self.dir,
            rx_size(self.card.config.second),
            self.card.receive,
        )
    }
}

// RX Early and TX Available, at the end of every step.
fn settle_sides(ram: &[u8], dir: &[u16], c: Card) -> Card
    requires { Held c ram.now dir.now × (kept (view c ram.now dir.now) ≡ true) }
    ensures { SettlesSides c result ram.now dir.now }
{
    Card {
        receive: receive::settle_early(ram, dir, rx_size(c.config.second), c.receive),
        transmit: transmit::settle(ram, dir, tx_size(c.config.second), c.transmit),
        ..c
    }
}

// What every step ends with, in full.
fn settle_all(ram: &[u8], dir: &[u16], c: Card) -> Card
    requires { Held c ram.now dir.now × (kept (view c ram.now dir.now) ≡ true) }
    ensures { Stands result ram.now dir.now (settle_of (view c ram.now dir.now)) }
{
    let mut settled = settle_sides(ram, dir, c);
    let rising = interrupts(settled.select, flags_of(ram, dir, settled));
    settled.lines.latch = rising | settled.lines.latch;
    settled
}

// Whether it is plain that nothing is due: RX Early is settled, TX Available is known without TX Free, and the latch stands or no interrupt is enabled.
fn is_quiet(ram: &[u8], dir: &[u16], c: Card) -> bool
    requires { Held c ram.now dir.now × (kept (view c ram.now dir.now) ≡ true) }
    ensures { result ≡ true → settle_of (view c ram.now dir.now) ≡ view c ram.now dir.now }
{
    let size = rx_size(c.config.second);
    let early = receive::early_settled(ram, dir, size, c.receive.frames, c.receive.receiver);
    let s = c.transmit.outcomes.sender;
    let known = (HIGHEST < s.level) | s.available;
    early & (known & (c.lines.latch | (c.select.mask == 0)))
}

// What every step ends with: RX Early, then TX Available, then the latch. Most steps leave nothing due, and then the card is not copied.
pub fn settle(ram: &[u8], dir: &[u16], c: Card) -> Card
    requires { Held c ram.now dir.now × (kept (view c ram.now dir.now) ≡ true) }
    ensures { Stands result ram.now dir.now (settle_of (view c ram.now dir.now)) }
{
    if is_quiet(ram, dir, c) {
        return c;
    }
    settle_all(ram, dir, c)
}

// The test of soundness that every public call makes.
pub fn is_sound(ram: &[u8], dir: &[u16], c: Card) -> bool
    requires { (length ram.now ≡ 8192) × (length dir.now ≡ 1110) }
    ensures { result ≡ sound_card c ram.now dir.now }
{
    if !receive::rx_sound(ram, dir, rx_size(c.config.second), c.receive) {
        return false;
    }
    if !transmit::tx_sound(ram, dir, tx_size(c.config.second), c.transmit) {
        return false;
    }
    let registers = idport::id_sound(c.id) & (!c.id.due & select_sound(c.select));
    if c.lines.latch | (c.select.mask == 0) {
        return registers;
    }
    registers & (c.lines.latch | !interrupts(c.select, flags_of(ram, dir, c)))
}

// Global Reset.
pub fn reset(c: Card) -> Card
    ensures { Does c result reset_of }
{
    power_on(c.id.words, receive::deafen(c.receive.receiver.wire))
}
