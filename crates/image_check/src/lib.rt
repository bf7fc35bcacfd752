#![tactic(auto)]
// An EEPROM image: 128 bytes, 64 words, low byte first; its checksums and its check.
// No call here asks anything of its caller: past an image's end every byte counts as 0.
mod one_byte; // one_byte.rt: what the image check is good for: theorems over its definitions
mod forms; // forms.rt: the two forms of the line
pub mod text; // text.rt: the line that is printed

ghost use Rattle.std.specs.Prelude.{◌≡◌, ◌/◌, ◌%◌};
ghost use Rattle.std.specs.Int.Bits.{bit_xor};
ghost use Rattle.image_rules.specs.ImageContracts as contract;

use bits::pair;
use image_rules::{BytePlace, Node, WordOffset};
use refusal::Refusal;
pub use text::{judged, line};

// Word 07h of every image.
const MAKER: u16 = 0x6d50;

// The one way from word offsets to byte places: the place of the word's low byte.
// An offset has six bits, as an EEPROM command's address has.
pub fn place_of(w: WordOffset) -> BytePlace
    ensures { contract.PlaceOf w result }
{
    BytePlace(2 * (w.0 % 64))
}

// The byte at a place; 0 past the image's end.
pub fn byte_at(image: &[u8], at: BytePlace) -> u8
    ensures { contract.ByteAt image.now at result }
{
    image.get(at.0).copied().unwrap_or(0)
}

// The word at an offset.
#[tactic(auto, unfolding(image_rules::specs::Image::word_at))]
pub fn word_at(image: &[u8], w: WordOffset) -> u16
    ensures { contract.WordAt image.now w result }
{
    let low = place_of(w).0;
    pair(
        byte_at(image, BytePlace(low + 1)),
        byte_at(image, BytePlace(low)),
    )
}

// What word 0Fh must be. Go down the printed listing from word 00h to word 0Eh and take each word once, whole: words 08h,
// 09h and 0Dh into `low`, all the others into `high`. At the end `high` is folded to the high byte, `low` to the low byte.
pub fn checksum(image: &[u8]) -> u16
    ensures { contract.Checksum image.now result }
{
    let mut high: u16 = 0;
    let mut low: u16 = 0;
    for w in 0x00..=0x0e {
        let word = word_at(image, WordOffset(w));
        match w {
            0x08 | 0x09 | 0x0d => low ^= word,
            _ => high ^= word,
        }
    }
    pair(folded(high), folded(low))
}

// What word 17h must be, in the same way: vital data makes its high byte, configurable data its low byte. Words 10h to 12h
// are vital, 13h to 16h configurable; then 17h to 1Fh are passed over, and words 20h to 3Fh are vital again.
pub fn secondary(image: &[u8]) -> u16
    ensures { contract.Secondary image.now result }
{
    let mut vital: u16 = 0;
    let mut configurable: u16 = 0;
    for w in 0x10..=0x16 {
        let word = word_at(image, WordOffset(w));
        match w {
            0x10 | 0x11 | 0x12 => vital ^= word,
            _ => configurable ^= word,
        }
    }
    for w in 0x20..=0x3f {
        vital ^= word_at(image, WordOffset(w));
    }
    pair(folded(vital), folded(configurable))
}

// A running word folded to a byte: its high byte and its low byte, exclusive-or'ed. 1234h gives 26h.
fn folded(word: u16) -> u8
    ensures { result ≡ bit_xor (word / 256) (word % 256) }
{
    (word / 256) as u8 ^ (word % 256) as u8
}

// Checks an image of any length. The first of 2, 8, 9 and 10 that is due is the answer.
#[tactic(auto, unfolding(image_rules::specs::Image::check_of))]
pub fn check(image: &[u8]) -> Result<Node, Refusal>
    ensures { contract.Check image.now result }
{
    if image.len() != 128 {
        return Err(Refusal::LengthOutside);
    }
    if word_at(image, WordOffset(0x07)) != MAKER {
        return Err(Refusal::MakerWrong);
    }
    if word_at(image, WordOffset(0x0f)) != checksum(image) {
        return Err(Refusal::ChecksumWrong);
    }
    if word_at(image, WordOffset(0x17)) != secondary(image) {
        return Err(Refusal::SecondaryWrong);
    }
    Ok(Node {
        node0: word_at(image, WordOffset(0x00)),
        node1: word_at(image, WordOffset(0x01)),
        node2: word_at(image, WordOffset(0x02)),
    })
}
