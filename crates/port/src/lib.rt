#![tactic(auto)]
// The cards on one ID port, as a bus by value: a byte written, the port read, the search and the activation of a found card.
// Each call lends the cards that are there to the call of its name over a slice (crate `lent_port`), which tests and steps them; a refused call returns the bus as it came.
ghost use Rattle.port_rules.specs.PortContracts as contract;

use port_rules::{After, AfterSearch, Bus, Listed};

mod lend; // lend.rt: the cards that are there, lent as a slice

// A byte written to the port, which each card sees. A port is its I/O address, 100h to 1F0h.
pub fn port_write(b: Bus, port: u16, byte: u8) -> After<()>
    ensures { contract.PortWrite b port byte result }
{
    let (bus, answer) = lend::call(b, |cards| lent_port::write(cards, port, byte), Err);
    After { bus, answer }
}

// A bit read from the port, and the cards as the contention leaves them.
pub fn port_read(b: Bus, port: u16) -> After<u8>
    ensures { contract.PortRead b port result }
{
    let (bus, answer) = lend::call(b, |cards| lent_port::read(cards, port), Err);
    After { bus, answer }
}

// The search: the cards found are tagged from 1 on.
pub fn find_cards(b: Bus, port: u16) -> AfterSearch
    ensures { contract.FindCards b port result }
{
    let (bus, found) = lend::call(
        b,
        |cards| lent_port::find(cards, port),
        |why| Listed {
            answer: Err(why),
            addresses: [0; 7],
        },
    );
    let addresses = found.addresses;
    AfterSearch {
        bus,
        answer: found.answer,
        addresses,
    }
}

// Activation of the card with this tag, 1 to 7, at this base number; 31 means preconfigured.
pub fn activate_card(b: Bus, port: u16, tag: u8, base: u8) -> After<usize>
    ensures { contract.ActivateCard b port tag base result }
{
    let (bus, answer) = lend::call(b, |cards| lent_port::activate(cards, port, tag, base), Err);
    After { bus, answer }
}
