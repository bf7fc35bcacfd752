#![tactic(auto)]
// A catalogue's file: up to 64 cards, each with one to eight numbered versions of its image.
// Here a file is judged; `catalogue_rules/specs/Reading.antt` says what a file is read as, and how a catalogue is written.
pub mod fields; // fields.rt: tagged fields in a lent area: one-byte tag, two-byte length with its low byte first, then the value
pub mod search;
mod turns;

ghost use Rattle.std.specs.Prelude.{◌≡◌};
ghost use Rattle.catalogue_rules.specs.Reading.{parsed, judged};
ghost use Rattle.catalogue_rules.specs.FileContracts.{Checks};

use catalogue_rules::Counts;
pub use fields::{field_at, part, value_byte, value_number};
use refusal::Refusal;
pub use search::{address_at, is_address, listed, twice};

// Takes the fields of a file in their turns, up to the count: 15 or 16 where they are not in order. How many cards there are,
// and whether one is listed twice, is not judged yet.
pub fn parse(file: &[u8]) -> Result<Counts, Refusal>
    ensures { result ≡ judged (parsed file.now) }
{
    turns::walk(file)
}

// Checks a file of any length.
#[tactic(auto, using(catalogue_rules::proofs::Checked::is_refused_lem, catalogue_rules::proofs::Checked::is_crowded, catalogue_rules::proofs::Checked::is_twice, catalogue_rules::proofs::Checked::is_sound))]
pub fn check(file: &[u8]) -> Result<Counts, Refusal>
    ensures { Checks file.now result }
{
    let counts = turns::walk(file)?;
    if 64 < counts.cards {
        return Err(Refusal::NoPlace);
    }
    if search::twice(file) {
        return Err(Refusal::ListedTwice);
    }
    Ok(counts)
}
