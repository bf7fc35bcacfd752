#![tactic(auto)]
// The ID port: the ID sequence, one card's ID state and its steps, the bit that the cards on one port leave, the search and the activation.
use refusal::Refusal;

// A card on the ID port. In ID_WAIT (`command` is false) it listens for the sequence at the port that a zero chose; in ID_CMD it obeys.
// Flags and numbers, and no enum or Option: the C interface hands this struct over as it lies.
#[repr(C)]
#[derive(Clone, Copy)]
pub struct IdState {
    pub command: bool,
    // x of port 1x0h, 16 for none.
    pub port: u8,
    // Place in the sequence.
    pub at: u8,
    pub tag: u8,
    // The EEPROM Data register.
    pub shift: u16,
    // The Address Configuration register.
    pub address: u16,
    pub active: bool,
    // A reset came through the ID port and the card has not carried it out yet.
    pub due: bool,
    pub words: [u16; 64],
}

// Up to eight cards, of which the first `count` are there: the C interface hands this struct over as it lies.
#[repr(C)]
#[derive(Clone, Copy)]
pub struct Bus {
    pub cards: [IdState; 8],
    pub count: usize,
}

// The cards after a call, and its answer: a write tells nothing, a read the bit that the bus carried, an activation the accesses used.
#[derive(Clone, Copy)]
pub struct After<T> {
    pub bus: Bus,
    pub answer: Result<T, Refusal>,
}

// How many cards a search found, and the accesses used.
#[derive(Clone, Copy)]
pub struct Cards {
    pub count: usize,
    pub accesses: usize,
}

// The first `count` of `addresses` are the station addresses found, in ascending order; the others are 0.
// Seven places beside the answer, since the C interface hands them over whole, refused or not.
#[derive(Clone, Copy)]
pub struct AfterSearch {
    pub bus: Bus,
    pub answer: Result<Cards, Refusal>,
    pub addresses: [u64; 7],
}

// What a search over a lent slice answers: the cards stay where they are lent.
#[derive(Clone, Copy)]
pub struct Listed {
    pub answer: Result<Cards, Refusal>,
    pub addresses: [u64; 7],
}
