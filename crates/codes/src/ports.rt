// The answers of the search and of an activation in numbers.
ghost use Rattle.std.specs.Prelude.{◌≡◌};
ghost use Rattle.codes.specs.Codes.{coded_found, coded_activated};

use crate::code;
use port_rules::{After, AfterSearch, Bus, Cards};

// The cards after a search; the addresses found, how many they are, the accesses used, and the code. It is C's, as are all structs of this crate: one for each answer, with plain fields.
#[repr(C)]
#[derive(Clone, Copy)]
pub struct BusFound {
    pub bus: Bus,
    pub addresses: [u64; 7],
    pub count: usize,
    pub accesses: usize,
    pub code: u8,
}

// The cards after an activation, the accesses used, and the code.
#[repr(C)]
#[derive(Clone, Copy)]
pub struct BusDone {
    pub bus: Bus,
    pub accesses: usize,
    pub code: u8,
}

pub fn coded_found(x: AfterSearch) -> BusFound
    ensures { result ≡ coded_found x }
{
    let found = x.answer.unwrap_or(Cards {
        count: 0,
        accesses: 0,
    });
    BusFound {
        bus: x.bus,
        addresses: x.addresses,
        count: found.count,
        accesses: found.accesses,
        code: code(&x.answer),
    }
}

pub fn coded_activated(x: After<usize>) -> BusDone
    ensures { result ≡ coded_activated x }
{
    BusDone {
        bus: x.bus,
        accesses: x.answer.unwrap_or(0),
        code: code(&x.answer),
    }
}
