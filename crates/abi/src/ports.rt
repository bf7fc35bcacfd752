// Several cards on one ID port: the search and the activation of a found card.
ghost use Rattle.abi.specs.Ports as says;

use codes::{BusDone, BusFound};
use port_rules::Bus;

// The search: the cards found are tagged from 1 on.
#[unsafe(no_mangle)]
pub extern "C" fn seamtrout_bus_search(b: Bus, port: u16) -> BusFound
    ensures { says.Finds b port result }
{
    codes::coded_found(port::find_cards(b, port))
}

// Activation of the card with this tag at this base number; 31 means preconfigured.
#[unsafe(no_mangle)]
pub extern "C" fn seamtrout_bus_activate(b: Bus, port: u16, tag: u8, base: u8) -> BusDone
    ensures { says.Activates b port tag base result }
{
    codes::coded_activated(port::activate_card(b, port, tag, base))
}
