#![tactic(auto)]
// The EEPROM image: its words and bytes, the checksums, the check, and the line that the image program prints.
ghost use Rattle.std.specs.Prelude.{◌≡◌, ◌≤◌, take};

// Where a word stands in the EEPROM, counted in words.
#[derive(Clone, Copy)]
pub struct WordOffset(pub usize);

// Where a byte stands in the image file, counted in bytes.
#[derive(Clone, Copy)]
pub struct BytePlace(pub usize);

// The node address of a sound image: words 00h, 01h and 02h.
#[derive(Clone, Copy)]
pub struct Node {
    pub node0: u16,
    pub node1: u16,
    pub node2: u16,
}

// A text of at most 22 bytes: the first `len` of `bytes`.
#[derive(Clone, Copy)]
pub struct Text {
    pub bytes: [u8; 22],
    pub len: usize,
    ghost within: { len ≤ 22 },
}

impl Text {
    // Its bytes.
    pub fn line(&self) -> &[u8]
        ensures { result.now ≡ take self.now.len self.now.bytes }
    {
        &self.bytes[..self.len]
    }
}
