#![tactic(auto)]
// Three cards on ID port 110h are found, and the second is activated at base number 5. A tag of 8 is refused.
use idport::fresh;
use port_rules::{Bus, Cards, IdState};
use refusal::Refusal;
use std::io;

// A card after power-on, with this station address in its EEPROM.
fn card(a: u16, b: u16, c: u16) -> IdState {
    let mut words = [0u16; 64];
    words[0] = a;
    words[1] = b;
    words[2] = c;
    fresh(words)
}

fn tell_refused(rt: &HostRuntime, why: Refusal) -> io::Result<()> {
    let number = refusal::number(why);
    println!(rt; "refused {number}")
}

fn tell_found(rt: &HostRuntime, answer: Result<Cards, Refusal>) -> io::Result<()> {
    match answer {
        Err(why) => tell_refused(rt, why),
        Ok(Cards { count, accesses }) => println!(rt; "found {count} accesses {accesses}"),
    }
}

fn tell_activation(rt: &HostRuntime, answer: Result<usize, Refusal>) -> io::Result<()> {
    match answer {
        Err(why) => tell_refused(rt, why),
        Ok(accesses) => println!(rt; "activated accesses {accesses}"),
    }
}

fn tell_addresses(rt: &HostRuntime, addresses: [u64; 7]) -> io::Result<()> {
    for a in addresses {
        println!(rt; "{a:012x}")?;
    }
    Ok(())
}

fn main(rt: HostRuntime) -> io::Result<()> {
    let none = card(0, 0, 0);
    let mut cards = [none; 8];
    cards[0] = card(0x0020, 0xAF01, 0x0203);
    cards[1] = card(0x0020, 0xAF00, 0xFFFF);
    cards[2] = card(0x0000, 0, 1);
    let searched = port::find_cards(Bus { cards, count: 3 }, 0x110);
    let addresses = searched.addresses;
    tell_found(&rt, searched.answer)?;
    tell_addresses(&rt, addresses)?;
    let activated = port::activate_card(searched.bus, 0x110, 2, 5);
    tell_activation(&rt, activated.answer)?;
    let again = port::activate_card(activated.bus, 0x110, 8, 5);
    tell_activation(&rt, again.answer)
}
