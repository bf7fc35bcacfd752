#![tactic(auto)]
// Looking cards up in a catalogue's file. An image is handed back as a part of the file, without copying.
// Refusals in the order 15, 16, 17, 18, 19: the file's own 18 and 19 come behind a card that is not there.

mod tests;
pub mod walk;

ghost use Rattle.catalogue_rules.specs.LookupContracts.{Latest, Given, LooksUp, ImageOf};

pub use catalogue_read::part;
use catalogue_read::{listed, parse};
use catalogue_rules::{Hit, Span};
use refusal::Refusal;
pub use walk::newest;

// The latest version of a card.
#[tactic(auto, using(catalogue_rules::proofs::Accepted::refused_latest, catalogue_rules::proofs::Accepted::sound_latest))]
pub fn latest(file: &[u8], address: u64) -> Result<Span, Refusal>
    ensures { Latest file.now address result }
{
    let counts = parse(file)?;
    tests::found_in(file, counts.cards, walk::newest_at(file, address))
}

// A given version of a card.
#[tactic(auto, using(catalogue_rules::proofs::Accepted::refused_given, catalogue_rules::proofs::Accepted::sound_given))]
pub fn given(file: &[u8], address: u64, number: u16) -> Result<Span, Refusal>
    ensures { Given file.now address number result }
{
    let counts = parse(file)?;
    tests::found_in(file, counts.cards, walk::numbered_at(file, address, number))
}

// The latest version of a card, out of the user's override catalogue if it has that card, else out of the main one.
#[tactic(auto, using(catalogue_rules::proofs::Accepted::refused_looked, catalogue_rules::proofs::Accepted::override_has, catalogue_rules::proofs::Accepted::main_is_refused, catalogue_rules::proofs::Accepted::main_has))]
pub fn lookup(own: &[u8], main: &[u8], address: u64) -> Result<Hit, Refusal>
    ensures { LooksUp own.now main.now address result }
{
    let cards = parse(own)?.cards;
    if listed(own, 0, address) {
        return tests::found_in(own, cards, walk::newest_at(own, address)).map(Hit::InOverride);
    }
    let others = parse(main)?.cards;
    tests::in_main(own, cards, main, others, walk::newest_at(main, address))
}

// The image that a lookup found, as a part of the catalogue that has it.
pub fn image_of<'a>(own: &'a [u8], main: &'a [u8], hit: Result<Hit, Refusal>) -> &'a [u8]
    ensures { ImageOf own.now main.now hit result.now }
{
    match hit {
        Ok(Hit::InOverride(Span { start, len })) => part(own, start, len),
        Ok(Hit::InMain(Span { start, len })) => part(main, start, len),
        Err(_) => &[],
    }
}
