#![tactic(auto)]
// The transmit side: the FIFO and the packet that leaves it, the status stack, the sender and what it reports, and the whole together.

// `packets`: how many are whole; `words`: how many have come of the one being written.
#[repr(C)]
#[derive(Clone, Copy, Default)]
pub struct Fifo {
    pub failed: bool,
    pub packets: usize,
    pub words: usize,
}

// The first `count` of 31 entries are the statuses; C hands them over as they lie.
#[repr(C)]
#[derive(Clone, Copy)]
pub struct Statuses {
    pub entries: [u8; 31],
    pub count: usize,
}

// `level`: the TX Available threshold; `start`: the TX Start threshold.
#[repr(C)]
#[derive(Clone, Copy)]
pub struct Sender {
    pub on: bool,
    pub available: bool,
    pub level: u16,
    pub start: u16,
}

#[repr(C)]
#[derive(Clone, Copy)]
pub struct Outcomes {
    pub sender: Sender,
    pub statuses: Statuses,
}

#[repr(C)]
#[derive(Clone, Copy)]
pub struct Transmit {
    pub fifo: Fifo,
    pub outcomes: Outcomes,
}

// The transmit side after a success, and how many bytes the wire is told.
#[derive(Clone, Copy)]
pub struct Gone {
    pub transmit: Transmit,
    pub n: usize,
}
