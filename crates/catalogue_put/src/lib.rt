#![tactic(auto)]
// Writing fields into a lent area.
ghost use Rattle.std.specs.Prelude.{◌≡◌, List, [], ◌∷◌, ◌+◌, ◌<◌, ◌≤◌, length};
ghost use Rattle.catalogue_rules.specs.Field.{field, bytes_of};
ghost use Rattle.catalogue_rules.specs.Reading.{count_field};
ghost use Rattle.catalogue_rules.specs.Archive.{address_in};
ghost use Rattle.catalogue_rules.specs.Edit.{version_fields};
ghost use Rattle.catalogue_rules.specs.Put.{put_at};

use refusal::Refusal;

pub mod places; // places.rt: where the fields of a card stand in a catalogue's file, and how many versions it has

pub use places::{card_end, card_place, field_place, last_number, versions};

// Puts bytes at a place, and answers the place behind them.
pub fn bytes(out: &mut [u8], at: usize, src: &[u8]) -> usize
    requires { at + length src.now ≤ length out.old }
    ensures { (result ≡ at + length src.now) × (out.new ≡ put_at out.old at src.now) }
{
    let behind = at + src.len();
    out[at..behind].copy_from_slice(src);
    behind
}

// The two fields of a version.
pub fn version(out: &mut [u8], at: usize, number: u16, image: &[u8]) -> usize
    requires { (length image.now ≡ 128) × (at + 136 ≤ length out.old) }
    ensures { (result ≡ at + 136) × (out.new ≡ put_at out.old at (bytes_of (version_fields number image.now))) }
{
    let [low, high] = number.to_le_bytes();
    let head = [2, 2, 0, low, high, 3, 128, 0];
    let behind = bytes(out, at, &head);
    bytes(out, behind, image)
}

// The three fields of a card with one version.
pub fn card(out: &mut [u8], at: usize, image: &[u8]) -> usize
    requires { (length image.now ≡ 128) × (at + 145 ≤ length out.old) }
    ensures { (result ≡ at + 145) × (out.new ≡ put_at out.old at (bytes_of (field 1 (address_in image.now) ∷ version_fields 1 image.now))) }
{
    let head = [
        1, 6, 0, image[1], image[0], image[3], image[2], image[5], image[4],
    ];
    let behind = bytes(out, at, &head);
    version(out, behind, 1, image)
}

// The count of fields.
#[tactic(auto, unfolding(catalogue_rules::specs::Field::bytes_of))]
pub fn count(out: &mut [u8], at: usize, n: usize) -> usize
    requires { (n < 65536) × (at + 5 ≤ length out.old) }
    ensures { (result ≡ at + 5) × (out.new ≡ put_at out.old at (bytes_of (count_field n ∷ []))) }
{
    let [low, high] = (n as u16).to_le_bytes();
    let tail = [4, 2, 0, low, high];
    bytes(out, at, &tail)
}
