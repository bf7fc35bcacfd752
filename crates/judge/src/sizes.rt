// The paper's numbers: the areas that frames are handed up in, the lengths of frames and packets, RX Status's count, and the packets unreported.

// The lookahead area: a frame of up to so many bytes lies there.
pub const LOOKAHEAD_AREA: usize = 256;

// The frame area: a longer frame lies there.
pub const FRAME_AREA: usize = 1514;

// The unread bytes of a frame that is taken.
pub const SHORTEST_FRAME: i16 = 60;

pub const LONGEST_FRAME: i16 = 1514;

// A packet's length, without its check bytes.
pub const SHORTEST_PACKET: usize = 14;

pub const LONGEST_PACKET: usize = 1514;

// The values of RX Status's count, bits 10-0; above the most that a frame has it is below 0.
pub const COUNT_VALUES: u16 = 2048;

pub const MOST_UNREAD: u16 = 1792;

// As many packets are unreported at most.
pub const MOST_UNREPORTED: u8 = 16;
