// Where the cards of a file are.
ghost use Rattle.std.specs.Prelude.{◌≡◌, ◌&&◌, take, drop, eqb};
ghost use Rattle.catalogue_rules.specs.Field.{fields_of, value_at};
ghost use Rattle.catalogue_rules.specs.Turns.{address_of};
ghost use Rattle.catalogue_rules.specs.Reading.{addresses_of, is_among, any_twice};

use crate::fields::{byte_at, field_at, part};
use catalogue_rules::{ADDRESS, Found};

// The node address that a value is.
pub fn address_at(file: &[u8], start: usize, len: usize) -> u64
    ensures { result ≡ address_of (take len (drop start file.now)) }
{
    let v = part(file, start, len);
    u64::from_be_bytes([
        0,
        0,
        byte_at(v, 0),
        byte_at(v, 1),
        byte_at(v, 2),
        byte_at(v, 3),
        byte_at(v, 4),
        byte_at(v, 5),
    ])
}

// Whether a field is the address.
pub fn is_address(file: &[u8], f: Found, address: u64) -> bool
    ensures { result ≡ (eqb f.tag 1 && eqb (address_of (value_at file.now f)) address) }
{
    f.tag == ADDRESS && address_at(file, f.start, f.len) == address
}

// Whether a card is listed from a place on.
pub fn listed(file: &[u8], from: usize, address: u64) -> bool
    ensures { result ≡ is_among address (addresses_of (fields_of (drop from file.now))) }
{
    let mut at = from;
    while let Some(f) = field_at(file, at) {
        if is_address(file, f, address) {
            return true;
        }
        at = f.start + f.len;
    }
    false
}

// Whether a field is an address that is listed again behind it.
fn comes_again(file: &[u8], f: Found, next: usize) -> bool
    ensures { result ≡ (eqb f.tag 1 && is_among (address_of (value_at file.now f)) (addresses_of (fields_of (drop next file.now)))) }
{
    f.tag == ADDRESS && listed(file, next, address_at(file, f.start, f.len))
}

// Whether an address is listed twice.
pub fn twice(file: &[u8]) -> bool
    ensures { result ≡ any_twice (addresses_of (fields_of file.now)) }
{
    let mut at = 0;
    while let Some(f) = field_at(file, at) {
        let next = f.start + f.len;
        if comes_again(file, f, next) {
            return true;
        }
        at = next;
    }
    false
}
