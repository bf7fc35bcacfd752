#![tactic(auto)]
// Where a refused file or archive is wrong, looked for again so that a message can say it. Every call takes any bytes
// and ends; the refusal that was answered is the caller's.
pub mod archive;
pub mod file;
mod step;

pub use archive::{Pair, twins, unsound};
pub use file::{Again, Full, cards, damage, end, no_room, repeated};
