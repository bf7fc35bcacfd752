#![tactic(auto)]
// The receive side, as functions.
ghost use Rattle.std.specs.Prelude.{◌≡◌};
ghost use Rattle.receive_rules.specs.View.{rx_area};

pub mod reading; // reading.rt: what the host reads of the receive side, and the commands that drop frames: the unread bytes, RX Status, RX Complete, RX Free, the data read, RX Discard
pub mod sound; // sound.rt: the receive side of the card: its registers, the frames stored, RX Early, and the test of its soundness
pub mod wire; // wire.rt: the wire: a frame's start with its first 8 bytes, its single bytes, and its end

pub use reading::{deafen, discard, read_data, rx_complete, rx_free, rx_status, unread};
pub use sound::{early_settled, rx_sound, settle_early};
use store::Area;
pub use wire::{passes_filter, wire_byte, wire_end, wire_start};

// The directory words of the receive area: one for each frame.
const SLOTS: usize = 768;

// The receive area: the first `size` bytes of the memory, and the first words of the directory.
fn area(size: usize) -> Area
    ensures { result ≡ rx_area size }
{
    Area {
        base: 0,
        size,
        first: 0,
        slots: SLOTS,
    }
}

// A directory word from here on: the frame is still coming (bit 15).
const COMING: u16 = 32768;

// And from here on it has overrun (bit 14 too).
const OVERRUN: u16 = 49152;

// A frame's bytes past these are dropped.
const LONGEST: u16 = 1792;

// RX Early's threshold at reset.
pub const EARLY_DEFAULT: u16 = 2044;

// The least that is stored of it: a start brings as many bytes.
pub const EARLY_LEAST: u16 = 8;
