// Where a catalogue's file is wrong.
ghost use Rattle.std.specs.Prelude.{◌≤◌, length, IfSome};

use crate::step;
use catalogue_rules::ADDRESS;
use refusal::Refusal;

// The place of the first field that is cut, or the file's length where it ends between two fields.
pub fn end(file: &[u8]) -> usize
    ensures { result ≤ length file.now }
{
    let mut at = 0;
    while let Some(step) = step::at(file, at) {
        at = step.next;
    }
    at
}

// Whether nothing is wrong but that the rest is missing.
fn is_only_cut(part: &[u8]) -> bool {
    matches!(catalogue_read::check(part), Err(Refusal::FileEndsEarly))
}

// The place of the field that ends at a place.
fn place_of(file: &[u8], end: usize) -> usize
    ensures { result ≤ length file.now }
{
    let mut at = 0;
    while let Some(step) = step::at(file, at) {
        if end <= step.next {
            break;
        }
        at = step.next;
    }
    at
}

// The place of the damaged field, or of the count where that is wrong, out of turn or not the last. Up to the end of
// that field every beginning of the file is only cut, and none that is longer; so halving finds it.
// By hand, since `partition_point` asks of a slice's items, and here beginnings are asked of.
pub fn damage(file: &[u8]) -> usize
    ensures { result ≤ length file.now }
{
    let mut low = 0;
    let mut high = file.len();
    while low < high {
        let middle = low + (high - low) / 2;
        if is_only_cut(&file[..middle]) {
            low = middle + 1;
        } else {
            high = middle;
        }
    }
    place_of(file, high)
}

// An address that is listed a second time, and the place where it is.
#[derive(Clone, Copy)]
pub struct Again {
    pub address: u64,
    pub at: usize,
}

// The first address that was listed before.
pub fn repeated(file: &[u8]) -> Option<Again>
    ensures { IfSome result (λ again. again.at ≤ length file.now) }
{
    let mut at = 0;
    while let Some(step) = step::at(file, at) {
        let field = step.field;
        let address = catalogue_read::address_at(file, field.start, field.len);
        if field.tag == ADDRESS && catalogue_read::listed(&file[..at], 0, address) {
            return Some(Again { address, at });
        }
        at = step.next;
    }
    None
}

// How many cards are listed.
pub fn cards(file: &[u8]) -> usize
    ensures { result ≤ length file.now }
{
    let mut at = 0;
    let mut n = 0;
    while let Some(step) = step::at(file, at) {
        n += usize::from(step.field.tag == ADDRESS);
        at = step.next;
    }
    n
}

// What there is no room for.
#[derive(Clone, Copy)]
pub enum Full {
    Cards,
    Versions,
    Numbers,
    Fields,
}

// Why a version of a card does not go in: a ninth version before a number past the last, and both before the count.
pub fn no_room(file: &[u8], address: u64) -> Full {
    match catalogue_put::card_place(file, address) {
        None if 64 <= cards(file) => Full::Cards,
        Some(at) if 8 <= catalogue_put::versions(file, at) => Full::Versions,
        Some(at) if 65535 <= catalogue_put::last_number(file, at) => Full::Numbers,
        _ => Full::Fields,
    }
}
