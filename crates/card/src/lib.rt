#![tactic(auto)]
// The card: its public calls. Each tests the state that it is handed (refusal 1) and its arguments, refuses with card and memory as they came, or takes the step.
ghost use Rattle.std.specs.Prelude.{◌≡◌, Err};
ghost use Rattle.card_rules.specs.CardContracts as contract;

use card_rules::{After, Card, RxStatus};
use port_rules::IdState;
use refusal::Refusal;
use regs::Seen;

mod tests; // tests.rt: the tests of the card's public calls on what they are handed

// A card at power-on with these EEPROM words, and nothing on the wire.
pub fn power_on(words: [u16; 64]) -> Card
    ensures { contract.PowerOn words result }
{
    regs::power_on(words, 0)
}

// A refused call: the card is as it came.
fn refused<T>(card: Card, why: Refusal) -> After<T>
    ensures { result ≡ record { card = card; answer = Err why } }
{
    After {
        card,
        answer: Err(why),
    }
}

// The calls below are written out: each is its test, its step and its answer, and a function over closures for the three would hide the step.

// The host reads a word.
pub fn read_word(ram: &[u8; 8192], dir: &[u16; 1110], c: Card, o: u16) -> After<u16>
    ensures { contract.ReadsWord c ram.now dir.now o result }
{
    if let Err(why) = tests::word(ram, dir, c, o) {
        return refused(c, why);
    }
    let got = steps::read_word(ram, dir, c, o);
    After {
        card: got.card,
        answer: Ok(got.value),
    }
}

// The host reads a byte.
pub fn read_byte(ram: &[u8; 8192], dir: &[u16; 1110], c: Card, o: u16) -> After<u16>
    ensures { contract.ReadsByte c ram.now dir.now o result }
{
    if let Err(why) = tests::byte(ram, dir, c, o) {
        return refused(c, why);
    }
    let got = steps::read_byte(ram, dir, c, o);
    After {
        card: got.card,
        answer: Ok(got.value),
    }
}

// The host writes a word.
pub fn write_word(ram: &mut [u8; 8192], dir: &mut [u16; 1110], c: Card, o: u16, v: u16) -> After<()>
    ensures { contract.WritesWord c ram.old dir.old o v result ram.new dir.new }
{
    if let Err(why) = tests::word(ram, dir, c, o) {
        return refused(c, why);
    }
    let card = steps::write_word(ram, dir, c, o, v);
    After {
        card,
        answer: Ok(()),
    }
}

// The host writes a byte.
pub fn write_byte(ram: &mut [u8; 8192], dir: &mut [u16; 1110], c: Card, o: u16, v: u8) -> After<()>
    ensures { contract.WritesByte c ram.old dir.old o v result ram.new dir.new }
{
    if let Err(why) = tests::byte(ram, dir, c, o) {
        return refused(c, why);
    }
    let card = steps::write_byte(ram, dir, c, o, v);
    After {
        card,
        answer: Ok(()),
    }
}

// The wire starts a frame with its first 8 bytes.
pub fn wire_start(ram: &mut [u8; 8192], dir: &mut [u16; 1110], c: Card, first: [u8; 8]) -> After<()>
    ensures { contract.WireStart c ram.old dir.old first result ram.new dir.new }
{
    if let Err(why) = tests::off_wire(ram, dir, c) {
        return refused(c, why);
    }
    let card = steps::wire_start(ram, dir, c, first);
    After {
        card,
        answer: Ok(()),
    }
}

// The wire brings a byte.
pub fn wire_byte(ram: &mut [u8; 8192], dir: &mut [u16; 1110], c: Card, b: u8) -> After<()>
    ensures { contract.WireByte c ram.old dir.old b result ram.new dir.new }
{
    if let Err(why) = tests::on_wire(ram, dir, c) {
        return refused(c, why);
    }
    let card = steps::wire_byte(ram, dir, c, b);
    After {
        card,
        answer: Ok(()),
    }
}

// The wire ends the frame: check sequence good, alignment good.
pub fn wire_end(
    ram: &mut [u8; 8192],
    dir: &mut [u16; 1110],
    c: Card,
    check: bool,
    alignment: bool,
) -> After<()>
    ensures { contract.WireEnd c ram.old dir.old check alignment result ram.new dir.new }
{
    if let Err(why) = tests::on_wire(ram, dir, c) {
        return refused(c, why);
    }
    let card = steps::wire_end(ram, dir, c, check, alignment);
    After {
        card,
        answer: Ok(()),
    }
}

// A send outcome: success. The first bytes of `out`, as many as are answered, are what the wire is told; no other byte of it changes.
pub fn success(
    ram: &mut [u8; 8192],
    dir: &mut [u16; 1110],
    c: Card,
    out: &mut [u8; 1792],
) -> After<usize>
    ensures success { contract.Success c ram.old dir.old result ram.new dir.new }
    ensures success_area { contract.SuccessArea c ram.old dir.old out.old out.new }
{
    if let Err(why) = tests::ready(ram, dir, c) {
        return refused(c, why);
    }
    let gone = steps::success(ram, dir, c, out);
    After {
        card: gone.card,
        answer: Ok(gone.n),
    }
}

// A send outcome: 16 collisions.
pub fn collisions(ram: &mut [u8; 8192], dir: &mut [u16; 1110], c: Card) -> After<()>
    ensures { contract.Collisions c ram.old dir.old result ram.new dir.new }
{
    if let Err(why) = tests::ready(ram, dir, c) {
        return refused(c, why);
    }
    let card = steps::collisions(ram, dir, c);
    After {
        card,
        answer: Ok(()),
    }
}

// An ID state, as the ID port left it, is seated as the card's own; a reset that is due is carried out.
pub fn seat(ram: &[u8; 8192], dir: &[u16; 1110], c: Card, i: IdState) -> After<()>
    ensures { contract.Seat c ram.now dir.now i result }
{
    if let Err(why) = tests::seats(ram, dir, c, i) {
        return refused(c, why);
    }
    let card = steps::seat(ram, dir, c, i);
    After {
        card,
        answer: Ok(()),
    }
}

// The interrupt line that the card drives: 3, 5, 7, 9, 10, 11, 12 or 15, and 0 for none.
pub fn interrupt_line(ram: &[u8; 8192], dir: &[u16; 1110], c: Card) -> Result<u16, Refusal>
    ensures { contract.InterruptLine c ram.now dir.now result }
{
    tests::sound(ram, dir, c)?;
    Ok(regs::interrupt_line(c))
}

// RX Status, whatever window is selected, and the unread bytes as a signed number: -3 to 1,792. An inactive card reads all ones, and 0 is told.
pub fn rx_status(ram: &[u8; 8192], dir: &[u16; 1110], c: Card) -> Result<RxStatus, Refusal>
    ensures { contract.TellsRxStatus c ram.now dir.now result }
{
    tests::sound(ram, dir, c)?;
    if !c.id.active {
        return Ok(RxStatus {
            word: 65535,
            unread: 0,
        });
    }
    let seen = Seen { ram, dir, card: &c };
    let word = seen.rx_status();
    let unread = seen.unread();
    Ok(RxStatus { word, unread })
}
