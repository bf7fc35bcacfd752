#![tactic(auto)]
// Digits: numbers and byte strings are read from text and put into text.
mod printing;
mod reading;
mod round_trip; // round_trip.rt: what `hex` prints it reads back

pub use printing::{Text, digit};
pub use reading::{number, pairs};
