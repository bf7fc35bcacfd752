#![tactic(auto)]
// What C and Rust call: the public calls of the card, the ID port, the driver and the image check, with every answer in numbers.
// A code is 0 for done, else the paper's number of the refusal. A value that a refused call does not have is 0.

mod cards; // cards.rt: the card's calls
mod drivers; // drivers.rt: the driver's calls
mod ids; // ids.rt: one card on the ID port
mod images; // images.rt: the image check
mod ports; // ports.rt: several cards on one ID port
mod sizes; // sizes.rt: how large the structs are
