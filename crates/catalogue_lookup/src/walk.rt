// The fields of one card.
ghost use Rattle.std.specs.Prelude.{◌≡◌, drop, Err};
ghost use Rattle.refusal.specs.declared.Refusal.TheVariants.{NoSuchCard};
ghost use Rattle.catalogue_rules.specs.Field.{fields_of};
ghost use Rattle.catalogue_rules.specs.Lookup.{spots_from, spots_at, last_spot, numbered_spot, span};

use catalogue_put::card_place;
use catalogue_read::{field_at, value_number};
use catalogue_rules::{ADDRESS, Found, IMAGE, NUMBER, Span};
use refusal::Refusal;

// Where a field's value stands.
fn span(f: Found) -> Span
    ensures { result ≡ span f.start f.len }
{
    Span {
        start: f.start,
        len: f.len,
    }
}

// The newest image from a place up to the next card.
pub fn newest(file: &[u8], from: usize) -> Result<Span, Refusal>
    ensures { result ≡ last_spot (Err NoSuchCard) (spots_from from 0 (fields_of (drop from file.now))) }
{
    let mut best = Err(Refusal::NoSuchCard);
    let mut at = from;
    while let Some(f) = field_at(file, at) {
        if f.tag == ADDRESS {
            break;
        }
        if f.tag == IMAGE {
            best = Ok(span(f));
        }
        at = f.start + f.len;
    }
    best
}

// The newest image of a card.
#[tactic(auto, using(crate::proofs::Behind::last_nowhere, crate::proofs::Behind::last_behind))]
pub fn newest_at(file: &[u8], address: u64) -> Result<Span, Refusal>
    ensures { result ≡ last_spot (Err NoSuchCard) (spots_at address 0 (fields_of file.now)) }
{
    let at = card_place(file, address).ok_or(Refusal::NoSuchCard)?;
    newest(file, at)
}

// The image with a number, from a place up to the next card.
fn numbered(file: &[u8], from: usize, number: u16) -> Result<Span, Refusal>
    ensures { result ≡ numbered_spot number (spots_from from 0 (fields_of (drop from file.now))) }
{
    let mut told: u16 = 0;
    let mut at = from;
    while let Some(f) = field_at(file, at) {
        match f.tag {
            ADDRESS => break,
            NUMBER => told = value_number(file, f.start, f.len),
            IMAGE if told == number => return Ok(span(f)),
            _ => {}
        }
        at = f.start + f.len;
    }
    Err(Refusal::NoSuchCard)
}

// The image of a card with a number.
#[tactic(auto, using(crate::proofs::Behind::numbered_nowhere, crate::proofs::Behind::numbered_behind))]
pub fn numbered_at(file: &[u8], address: u64, number: u16) -> Result<Span, Refusal>
    ensures { result ≡ numbered_spot number (spots_at address 0 (fields_of file.now)) }
{
    let at = card_place(file, address).ok_or(Refusal::NoSuchCard)?;
    numbered(file, at, number)
}
