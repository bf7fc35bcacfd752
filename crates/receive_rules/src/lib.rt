#![tactic(auto)]
// The receive side: frames in memory, the wire, what the host reads, soundness.

// `early`: RX Early stands; `told`: it was set for the oldest frame; `read`: the bytes read of the oldest frame.
// `wire`: 0 no frame on the wire, 1 the frame on the wire is ignored to its end, 2 it is stored. It stays a number: C hands it in, and the test of soundness refuses any other (`sound_side`).
#[repr(C)]
#[derive(Clone, Copy)]
pub struct Receiver {
    pub on: bool,
    pub failed: bool,
    pub early: bool,
    pub told: bool,
    pub threshold: u16,
    pub read: u16,
    pub wire: u8,
}

// The registers, and how many frames are stored.
#[repr(C)]
#[derive(Clone, Copy)]
pub struct Receive {
    pub receiver: Receiver,
    pub frames: usize,
}
