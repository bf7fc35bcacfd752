#![tactic(auto)]
// The driver: calls as trees of accesses, its state, open, send, the items of a service, a whole service, hand_up.
use card_rules::Card;
use refusal::Refusal;

// Registers, by their offsets: those of window 1, then Status and command, in all windows.
pub const DATA: u16 = 0x00;

pub const RX_STATUS: u16 = 0x08;

pub const TX_STATUS: u16 = 0x0b;

pub const TX_FREE: u16 = 0x0c;

pub const STATUS: u16 = 0x0e;

// Commands: the number in bits 15-11. Constants and no enum: the word that is written is a command plus its argument, and an enum would need a function to add them.
pub const SELECT_WINDOW: u16 = 1 * 2048;

pub const RX_ENABLE: u16 = 4 * 2048;

pub const RX_DISCARD: u16 = 8 * 2048;

pub const TX_ENABLE: u16 = 9 * 2048;

pub const ACKNOWLEDGE: u16 = 13 * 2048;

pub const INTERRUPT_MASK: u16 = 14 * 2048;

pub const READ_ZERO: u16 = 15 * 2048;

pub const RX_FILTER: u16 = 16 * 2048;

// Whether the driver was opened, the packets sent modulo 65,536, those of them unreported, and an error seen since the last TX Enable.
#[repr(C)]
#[derive(Clone, Copy)]
pub struct Driver {
    pub opened: bool,
    pub sent: u16,
    pub unreported: u8,
    pub error: bool,
}

// An item of a service.
#[derive(Clone, Copy)]
pub enum Item {
    // The oldest unreported ticket, and the status.
    Reported(u16, u16),
    // The status alone: no packet is unreported.
    Status(u16),
    // The bytes of a frame: up to 256 lie in the lookahead area, more in the frame area.
    Frame(usize),
    Idle,
}

// What a part of a service leaves, and what it answers. With no answer it is paused, and goes on with a look at the accesses left.
#[derive(Clone, Copy)]
pub struct Served {
    pub driver: Driver,
    pub card: Card,
    pub answer: Option<Result<Item, Refusal>>,
    pub left: usize,
}

// Card and driver after a service, what it answers, and the accesses used.
#[derive(Clone, Copy)]
pub struct Serviced {
    pub card: Card,
    pub driver: Driver,
    pub answer: Result<Item, Refusal>,
    pub used: usize,
}

// Card and driver after an open, which answers nothing, or after a send, which answers the ticket.
#[derive(Clone, Copy)]
pub struct After<T> {
    pub card: Card,
    pub driver: Driver,
    pub answer: Result<T, Refusal>,
}
