#![tactic(auto)]
// The files of the catalogue's program, read and replaced whole, and their locks. Proved safe and ending; what is written is tested.
mod file_mode; // file_mode.rt: the mode of an open file, for a new file that is to have the same
pub mod files;
pub mod lock;
