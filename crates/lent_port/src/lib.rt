#![tactic(auto)]
// The cards on one ID port as a lent slice of ID states: a byte written, the port read, the search and the activation of a found card.
// Each call looks at each card, decides what the accesses carry, and steps each card where it stands. Each contract is that of the call over a bus by value (crate `port`), with the slice for the bus; a refused call leaves the slice as it came.
ghost use Rattle.port_rules.specs.Lent.{TheSameAsByValue};
ghost use Rattle.port_rules.specs.PortContracts as contract;

use crate::look::{activated, carried, each, tested};
use idport::{digit, id_after_read, id_write, names};
use port_rules::{Cards, IdState, Listed};
use refusal::Refusal;

mod card; // card.rt: one card by itself, access by access
mod look; // look.rt: a write, a read, an activation
mod roll; // roll.rt: the search

// A byte written to the port, which each card sees. A port is its I/O address, 100h to 1F0h.
pub fn write(cards: &mut [IdState], port: u16, byte: u8) -> Result<(), Refusal>
    ensures { contract.LentWrite cards.old port byte result cards.new }
{
    tested(cards, port)?;
    let x = digit(port);
    each(cards, |card| id_write(card, x, byte));
    Ok(())
}

// A bit read from the port, and the cards as the contention leaves them.
pub fn read(cards: &mut [IdState], port: u16) -> Result<u8, Refusal>
    ensures { contract.LentRead cards.old port result cards.new }
{
    tested(cards, port)?;
    let x = digit(port);
    let bit = carried(cards, x);
    each(cards, |card| id_after_read(card, x, bit));
    Ok(bit)
}

// The search: the cards found are tagged from 1 on.
pub fn find(cards: &mut [IdState], port: u16) -> Listed
    ensures { contract.LentFind cards.old port result cards.new }
{
    if let Err(why) = tested(cards, port) {
        return Listed {
            answer: Err(why),
            addresses: [0; 7],
        };
    }
    let x = digit(port);
    let found = roll::search(cards, x);
    let addresses = found.addresses;
    let count = found.count;
    each(cards, |card| roll::searched(card, x, &addresses[..count]));
    Listed {
        answer: Ok(Cards {
            count,
            accesses: found.accesses,
        }),
        addresses,
    }
}

// Activation of the card with this tag, 1 to 7, at this base number; 31 means preconfigured.
pub fn activate(cards: &mut [IdState], port: u16, tag: u8, base: u8) -> Result<usize, Refusal>
    ensures { contract.LentActivate cards.old port tag base result cards.new }
{
    tested(cards, port)?;
    if !names(tag, base) {
        return Err(Refusal::ArgumentOutside);
    }
    let x = digit(port);
    each(cards, |card| activated(card, x, tag, base));
    Ok(259)
}

// A slice of at most eight cards and a bus by value that holds the same cards come to the same.
pub fn the_same_as_by_value()
    ensures { TheSameAsByValue }
{}
