#![tactic(auto)]
// The items of a service: what is told of a report and of a frame, and the accesses that fetch them.

pub mod fetching; // fetching.rt: the fetch of a good frame, an item of a service
pub mod idling; // idling.rt: idle, an item of a service
pub mod reporting; // reporting.rt: the report of a packet, an item of a service
pub mod telling; // telling.rt: what the items of a service answer and leave: a refusal for want of accesses, any other end, the report of a packet

pub use fetching::{discard, fetch};
pub use idling::idle;
pub use reporting::report;
pub use telling::{ended, short};
