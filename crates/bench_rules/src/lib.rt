#![tactic(auto)]
// The bench's text: numbers and bytes as text, which line of a script asks for what, the answers as lines.

// What the bench answers. Bytes and addresses stand beside it.
#[derive(Clone, Copy)]
pub enum Reply {
    Nothing,
    What,
    Ok,
    Refused(u8),
    Word(u16),
    Byte(u16),
    RxStatus(u16, i16),
    Bit(u8),
    Wire,
    Found(usize, usize),
    Ticket(u16),
    Report(u16, u16, usize),
    Status(u16, usize),
    Look(usize),
    Frame(usize),
    Idle(usize),
    Short(usize),
}

// What a line asks for, by its first word; an empty line or a comment asks nothing.
#[derive(Clone, Copy)]
pub enum Kind {
    Nothing,
    Unknown,
    Power,
    Join,
    ReadWord,
    ReadByte,
    WriteWord,
    WriteByte,
    Start,
    Bytes,
    End,
    Sent,
    Collided,
    RxStatus,
    IdWrite,
    IdRead,
    Search,
    Activate,
    Open,
    Send,
    Service,
}

// A line understood: up to three numbers, or how many bytes its operand spells.
#[derive(Clone, Copy)]
pub struct Line {
    pub kind: Kind,
    pub a: u16,
    pub b: u16,
    pub c: u16,
    pub len: usize,
}
