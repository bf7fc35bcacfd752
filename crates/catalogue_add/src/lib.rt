#![tactic(auto)]
// Adding a version of a card to a catalogue. The changed file is written whole into another lent area, so that the old one
// stays until the new one is there; a refused call changes no byte.
mod write;

ghost use Rattle.std.specs.Prelude.{◌≡◌, false, true, ◌+◌, ◌≤◌, length, Ok};
ghost use Rattle.catalogue_rules.specs.Field.{fields_of};
ghost use Rattle.catalogue_rules.specs.Turns.{address_of};
ghost use Rattle.catalogue_rules.specs.Reading.{addresses_of, is_among, parsed, judged};
ghost use Rattle.catalogue_rules.specs.Archive.{address_in};
ghost use Rattle.catalogue_rules.specs.RoundTrip.{Bytes};
ghost use Rattle.catalogue_rules.specs.Edit.{on_catalogue, added_to};
ghost use Rattle.catalogue_rules.specs.PutContracts.{Writes, Adds};
ghost use Rattle.catalogue_put.specs.Places.{card_place};

use catalogue_rules::Counts;
use image_rules::WordOffset;
use refusal::Refusal;

// The node address of an image: words 00h to 02h.
pub fn address_of(image: &[u8]) -> u64
    ensures { result ≡ address_of (address_in image.now) }
{
    let high = image_check::word_at(image, WordOffset(0)) as u64;
    let middle = image_check::word_at(image, WordOffset(1)) as u64;
    let low = image_check::word_at(image, WordOffset(2)) as u64;
    (high * 65536 + middle) * 65536 + low
}

// A file whose fields were taken in turn, and the image that is added to it.
#[derive(Clone, Copy)]
struct Addition<'a> {
    file: &'a [u8],
    counts: Counts,
    image: &'a [u8; 128],
    // The walk over the fields told so many cards and fields.
    ghost told: { Ok counts ≡ judged (parsed file.now) },
    ghost bytes: { Bytes file.now },
}

impl<'a> Addition<'a> {
    // A card's first version.
    fn card(self, out: &mut [u8]) -> Result<usize, Refusal>
        requires file_value { is_among (address_of (address_in self.image.now)) (addresses_of (fields_of self.file.now)) ≡ false }
        requires out_len { length self.file.now + 145 ≤ length out.old }
        ensures { Writes (on_catalogue (parsed self.entry.file.now) (added_to self.entry.image.now)) result out.old out.new }
    {
        let Addition {
            file,
            counts,
            image,
        } = self;
        if (64 <= counts.cards) | (65532 < counts.fields) {
            return Err(Refusal::NoPlace);
        }
        if catalogue_read::twice(file) {
            return Err(Refusal::ListedTwice);
        }
        image_check::check(image)?;
        Ok(write::with_card(file, counts.fields, image, out))
    }

    // One more version of the card whose fields begin at a place.
    fn version(self, at: usize, out: &mut [u8]) -> Result<usize, Refusal>
        requires file_value { is_among (address_of (address_in self.image.now)) (addresses_of (fields_of self.file.now)) ≡ true }
        requires at_value { at ≡ card_place (address_of (address_in self.image.now)) (fields_of self.file.now) }
        requires out_len { length self.file.now + 145 ≤ length out.old }
        ensures { Writes (on_catalogue (parsed self.entry.file.now) (added_to self.entry.image.now)) result out.old out.new }
    {
        let Addition {
            file,
            counts,
            image,
        } = self;
        let versions = catalogue_put::versions(file, at);
        let last = catalogue_put::last_number(file, at);
        if (64 < counts.cards) | ((8 <= versions) | ((65535 <= last) | (65533 < counts.fields))) {
            return Err(Refusal::NoPlace);
        }
        if catalogue_read::twice(file) {
            return Err(Refusal::ListedTwice);
        }
        image_check::check(image)?;
        let place = catalogue_put::card_end(file, at);
        Ok(write::with_version(file, place, last + 1, counts.fields, image, out))
    }
}

// Adds a version of the image's card: its latest number plus 1, or 1 for a new card. 12, 2, 15, 16, 18, 19, then 8 to 10.
pub fn add(file: &[u8], image: &[u8], out: &mut [u8]) -> Result<usize, Refusal>
    ensures { Adds file.now image.now result out.old out.new }
{
    if out.len() < 145 || out.len() - 145 < file.len() {
        return Err(Refusal::ArgumentOutside);
    }
    let Ok(image) = <&[u8; 128]>::try_from(image) else {
        return Err(Refusal::LengthOutside);
    };
    let counts = catalogue_read::parse(file)?;
    let addition = Addition {
        file,
        counts,
        image,
    };
    match catalogue_put::card_place(file, address_of(image)) {
        None => addition.card(out),
        Some(at) => addition.version(at, out),
    }
}
