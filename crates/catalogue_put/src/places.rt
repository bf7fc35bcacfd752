// Where the fields of a card stand in a catalogue's file, and how many versions it has.
ghost use Rattle.std.specs.Prelude.{◌≡◌, ◌+◌, length, drop};
ghost use Rattle.catalogue_rules.specs.Field.{fields_of};
ghost use Rattle.catalogue_rules.specs.Reading.{addresses_of, is_among};
ghost use Rattle.catalogue_rules.specs.Cards.{versions_from};
ghost use Rattle.catalogue_rules.specs.Edit.{latest_number};
ghost use Rattle.catalogue_put.specs.Places.{card_place, card_end, field_place, seek_if};

use catalogue_read::{field_at, is_address, value_number};
use catalogue_rules::{ADDRESS, COUNT, IMAGE, NUMBER};

// Behind the address of a card.
pub fn card_place(file: &[u8], address: u64) -> Option<usize>
    ensures { result ≡ seek_if (is_among address (addresses_of (fields_of file.now))) (card_place address (fields_of file.now)) }
{
    let mut at = 0;
    while let Some(f) = field_at(file, at) {
        at = f.start + f.len;
        if is_address(file, f, address) {
            return Some(at);
        }
    }
    None
}

// The end of a card's fields: the next card, or the count.
pub fn card_end(file: &[u8], from: usize) -> usize
    ensures { result ≡ from + card_end (fields_of (drop from file.now)) }
{
    let mut at = from;
    while let Some(f) = field_at(file, at) {
        if f.tag == ADDRESS || f.tag == COUNT {
            break;
        }
        at = f.start + f.len;
    }
    at
}

// The first field with a tag, from a place on.
pub fn field_place(file: &[u8], from: usize, wanted: u8) -> usize
    ensures { result ≡ from + field_place wanted (fields_of (drop from file.now)) }
{
    let mut at = from;
    while let Some(f) = field_at(file, at) {
        if f.tag == wanted {
            break;
        }
        at = f.start + f.len;
    }
    at
}

// How many versions stand between a place and the next card.
pub fn versions(file: &[u8], from: usize) -> usize
    ensures { result ≡ length (versions_from 0 (fields_of (drop from file.now))) }
{
    let mut at = from;
    let mut n: usize = 0;
    while let Some(f) = field_at(file, at) {
        if f.tag == ADDRESS {
            break;
        }
        n += usize::from(f.tag == IMAGE);
        at = f.start + f.len;
    }
    n
}

// The number of the latest of them; 0 where there is none.
pub fn last_number(file: &[u8], from: usize) -> u16
    ensures { result ≡ latest_number (versions_from 0 (fields_of (drop from file.now))) }
{
    let mut at = from;
    let mut told: u16 = 0;
    let mut last: u16 = 0;
    while let Some(f) = field_at(file, at) {
        match f.tag {
            ADDRESS => break,
            NUMBER => told = value_number(file, f.start, f.len),
            IMAGE => last = told,
            _ => {}
        }
        at = f.start + f.len;
    }
    last
}
