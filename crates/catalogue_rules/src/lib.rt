#![tactic(auto)]
// The catalogue: tagged fields, a file's meaning and its check, the round trips, looking cards up, archives, the changes, and what a change writes.

// The tags that are known; a file may have others too.
// A card's node address, a version's number, its image, and the count of the fields.
pub const ADDRESS: u8 = 1;

pub const NUMBER: u8 = 2;

pub const IMAGE: u8 = 3;

pub const COUNT: u8 = 4;

// A whole field of a file: its value has `len` bytes from `start` on.
#[derive(Clone, Copy)]
pub struct Found {
    pub tag: u8,
    pub start: usize,
    pub len: usize,
}

// What may come next in a file.
#[derive(Clone, Copy)]
pub enum Turn {
    // Nothing has come: a card or the end.
    Begun,
    // A card's address has come: its first number.
    Addressed,
    // The number of the card's nth version has come: the image.
    Numbered { nth: usize, number: u16 },
    // That image has come: another number, another card or the end.
    Imaged { nth: usize, number: u16 },
    // A field was out of turn.
    Damaged,
}

// How many cards a file has, and how many fields before the count.
#[derive(Clone, Copy)]
pub struct Counts {
    pub cards: usize,
    pub fields: usize,
}

// Where an image stands in a file: its first byte, and how many there are.
#[derive(Clone, Copy)]
pub struct Span {
    pub start: usize,
    pub len: usize,
}

// Where an image stands in one of two files.
#[derive(Clone, Copy)]
pub enum Hit {
    InOverride(Span),
    InMain(Span),
}
