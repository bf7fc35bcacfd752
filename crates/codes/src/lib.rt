#![tactic(auto)]
// Every answer in numbers, as C and Rust are told it.
// A code is 0 for done, else the paper's number of the refusal. A value that a refused call does not have is 0.
ghost use Rattle.std.specs.Prelude.{◌≡◌};
ghost use Rattle.codes.specs.Codes as codes;

use refusal::Refusal;

pub mod cards; // cards.rt: the card's answers
pub mod drivers; // drivers.rt: the driver's answers
pub mod images; // images.rt: the answer of the image check
pub mod ports; // ports.rt: the answers of the search and of an activation

pub use cards::{
    CardDone, CardLine, CardRead, CardRxStatus, CardTold, coded_done, coded_line, coded_read,
    coded_rx_status, coded_told,
};
pub use drivers::{
    DriverDone, DriverSent, DriverServed, HandedUp, coded_opened, coded_part, coded_sent,
    coded_served,
};
pub use images::{ImageChecked, coded_check};
pub use ports::{BusDone, BusFound, coded_activated, coded_found};

// The code of an answer, whatever it tells.
fn code<T>(a: &Result<T, Refusal>) -> u8
    ensures { result ≡ codes.code a.now }
{
    match a {
        Ok(_) => 0,
        Err(why) => refusal::number(*why),
    }
}
