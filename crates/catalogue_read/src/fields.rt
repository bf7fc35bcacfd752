// Tagged fields in a lent area: one-byte tag, two-byte length with its low byte first, then the value.
ghost use Rattle.std.specs.Prelude.{◌≡◌, get_or, take, drop};
ghost use Rattle.catalogue_rules.specs.Field.{number_at, found_at};
ghost use Rattle.catalogue_rules.specs.LookupContracts.{Part};

use catalogue_rules::Found;

// A byte; 0 past the end.
pub fn byte_at(file: &[u8], at: usize) -> u8
    ensures { result ≡ get_or file.now at 0 }
{
    file.get(at).copied().unwrap_or(0)
}

// The field at a place.
#[tactic(auto, using(catalogue_rules::proofs::At::cut_head, catalogue_rules::proofs::At::cut_value, catalogue_rules::proofs::At::found_whole))]
pub fn field_at(file: &[u8], at: usize) -> Option<Found>
    ensures { result ≡ found_at file.now at }
{
    if file.len() < 3 || file.len() - 3 < at {
        return None;
    }
    let room = file.len() - 3 - at;
    let len = u16::from_le_bytes([file[at + 1], file[at + 2]]) as usize;
    if room < len {
        return None;
    }
    Some(Found {
        tag: file[at],
        start: at + 3,
        len,
    })
}

// The bytes from a place on, as a part of the file; as many as there are where it ends first.
pub fn part(file: &[u8], start: usize, len: usize) -> &[u8]
    ensures { Part file.now start len result.now }
{
    let rest = file.get(start..).unwrap_or(&[]);
    rest.get(..len).unwrap_or(rest)
}

// Byte `i` of the value of `len` bytes that starts at a place; 0 past its end.
pub fn value_byte(file: &[u8], start: usize, len: usize, i: usize) -> u8
    ensures { result ≡ get_or (take len (drop start file.now)) i 0 }
{
    byte_at(part(file, start, len), i)
}

// The first two bytes of a value as a number.
pub fn value_number(file: &[u8], start: usize, len: usize) -> u16
    ensures { result ≡ number_at (take len (drop start file.now)) 0 }
{
    let value = part(file, start, len);
    u16::from_le_bytes([byte_at(value, 0), byte_at(value, 1)])
}
