#![tactic(auto)]
// The card: its registers and Status, power-on, EEPROM commands, the commands, the register map, the steps, and the public calls' answers.
use port_rules::IdState;
use receive_rules::Receive;
use refusal::Refusal;
use transmit_rules::Transmit;

// The window, the interrupt mask, the Read Zero mask and the RX filter.
#[repr(C)]
#[derive(Clone, Copy)]
pub struct Select {
    pub window: u16,
    pub mask: u16,
    pub zero: u16,
    pub filter: u16,
}

// The Interrupt Latch, Interrupt Requested, and the low byte held of a command.
#[repr(C)]
#[derive(Clone, Copy)]
pub struct Lines {
    pub latch: bool,
    pub requested: bool,
    pub low: u8,
}

// What was loaded from the EEPROM (words 03h, 09h, 12h and 13h), the ENA bit, and the station address.
#[repr(C)]
#[derive(Clone, Copy)]
pub struct Config {
    pub product: u16,
    pub resource: u16,
    pub enabled: bool,
    pub first: u16,
    pub second: u16,
    pub station: [u8; 6],
}

// The last EEPROM command, and whether erasing and writing is enabled.
#[repr(C)]
#[derive(Clone, Copy)]
pub struct Prom {
    pub last: u8,
    pub writable: bool,
}

#[repr(C)]
#[derive(Clone, Copy)]
pub struct Card {
    pub id: IdState,
    pub select: Select,
    pub lines: Lines,
    pub config: Config,
    pub prom: Prom,
    pub receive: Receive,
    pub transmit: Transmit,
}

// The flags that the low byte of Status shows: Interrupt Latch, Adapter Failure, TX Complete, TX Available, RX Complete, RX Early, Interrupt Requested.
#[derive(Clone, Copy)]
pub struct Flags {
    pub latch: bool,
    pub failed: bool,
    pub completed: bool,
    pub available: bool,
    pub received: bool,
    pub early: bool,
    pub requested: bool,
}

// What an EEPROM command leaves.
#[derive(Clone, Copy)]
pub struct Setup {
    pub id: IdState,
    pub prom: Prom,
}

// Which bytes of a register a write covers.
#[derive(Clone, Copy)]
pub enum Lanes {
    Both,
    Low,
    High,
}

// The card after a read, and the value.
#[derive(Clone, Copy)]
pub struct Got {
    pub card: Card,
    pub value: u16,
}

// The card after a success, and how many bytes the wire was told.
#[derive(Clone, Copy)]
pub struct Gone {
    pub card: Card,
    pub n: usize,
}

// What `rx_status` tells: the word, and the unread bytes.
#[derive(Clone, Copy)]
pub struct RxStatus {
    pub word: u16,
    pub unread: i16,
}

// The card after a public call, and the answer: a read's value, nothing where a call only does, or how many bytes the wire was told.
#[derive(Clone, Copy)]
pub struct After<T> {
    pub card: Card,
    pub answer: Result<T, Refusal>,
}
