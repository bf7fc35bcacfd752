#![tactic(auto)]
// One card on the ID port: document 01, "Finding cards on one ID port", and the manual's ISA Activation chapter.
ghost use Rattle.port_rules.specs.Sequence.{TheSequence};
ghost use Rattle.port_rules.specs.Sound.{EveryStepKeepsSoundness};
ghost use Rattle.port_rules.specs.PortContracts as contract;

use port_rules::IdState;

pub mod cards; // cards.rt: whether the cards on one ID port are sound, and the tests of the calls' arguments
mod command;
mod contend;
pub mod one_card; // one_card.rt: one card's steps at the ID port
pub mod sequence;
mod wait;

pub use cards::{all_sound, digit, is_port, names};
pub use one_card::{bit, heard, written};
pub use sequence::byte_at;

// A card after power-on, with these words in its EEPROM.
pub fn fresh(words: [u16; 64]) -> IdState
    ensures { contract.Fresh words result }
{
    IdState {
        command: false,
        port: 16,
        at: 0,
        tag: 0,
        shift: 0,
        address: words[8],
        active: false,
        due: false,
        words,
    }
}

// Whether the state is one that a card can be in.
#[tactic(auto, unfolding(port_rules::specs::Sound::id_sound))]
pub fn id_sound(s: IdState) -> bool
    ensures { contract.IdSound s result }
{
    (s.port <= 16)
        & (s.at <= 254)
        & (s.tag <= 7)
        & (!s.command | ((s.port <= 15) & (s.at == 0)))
        & ((s.port != 16) | (s.at == 0))
}

// A byte written to port 1x0h, where `port` is x.
#[tactic(auto, unfolding(port_rules::specs::Card::id_write))]
pub fn id_write(s: IdState, port: u8, byte: u8) -> IdState
    ensures { contract.IdWrite s port byte result }
{
    if !s.command {
        return wait::listen(s, port, byte);
    }
    if port == s.port {
        return command::obey(s, byte);
    }
    s
}

// The bit that the card drives when the port is read; a card that drives none leaves the bus its 1.
#[tactic(auto, unfolding(port_rules::specs::Card::id_bit))]
pub fn id_bit(s: IdState, port: u8) -> u8
    ensures { contract.IdBit s port result }
{
    if contend::drives(s, port) {
        return (s.shift >> 15) as u8;
    }
    1
}

// The card after a read of the port that gave `bus`.
#[tactic(auto, unfolding(port_rules::specs::Card::id_after_read))]
pub fn id_after_read(s: IdState, port: u8, bus: u8) -> IdState
    ensures { contract.IdAfterRead s port bus result }
{
    if !contend::drives(s, port) {
        return s;
    }
    let next = IdState {
        shift: s.shift << 1,
        ..s
    };
    if bus == id_bit(s, port) {
        return next;
    }
    command::waiting(next)
}

// The table starts at FFh and ends at 98h, and a zero never occurs in it.
pub fn the_sequence()
    ensures { TheSequence }
{}

// A card is sound after power-on, and every write and read keeps it so.
pub fn every_step_keeps_soundness()
    ensures { EveryStepKeepsSoundness }
{}
