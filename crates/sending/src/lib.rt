#![tactic(auto)]
// Sending: the refusals in their order, the two preamble words and the data.
ghost use Rattle.std.specs.Prelude.{◌≡◌, ◌≤◌, length, Ok, Err};
ghost use Rattle.card_rules.specs.View.{view, Sound, Stands};
ghost use Rattle.driver_rules.specs.Driver.{sending};
ghost use Rattle.driver_rules.specs.Packet.{packet_words};
ghost use Rattle.driver_rules.specs.Talk.{run, words_of, after_writes};
ghost use Rattle.driver_rules.specs.Send.{send_talk};
ghost use Rattle.driver_rules.specs.Sends.{Sends, Tests};

use card_rules::Card;
use driver_rules::{After, Driver};
use refusal::Refusal;

// Completion wanted: bit 15 of the first preamble word.
const COMPLETION: u16 = 0x8000;

// The first `words` words of a packet, padded with zeros, to the data port.
fn write_data(ram: &mut [u8], dir: &mut [u16], c: Card, packet: &[u8], words: usize) -> Card
    requires { Sound c ram.old dir.old × (words ≤ 1000) }
    ensures { Stands result ram.new dir.new (after_writes (words_of words packet.now) (view c ram.old dir.old)) }
{
    let mut at = c;
    for i in 0..words {
        let low = judge::byte_of(packet, 2 * i);
        let high = judge::byte_of(packet, 2 * i + 1);
        let word = u16::from_le_bytes([low, high]);
        at = steps::write_word(ram, dir, at, driver_rules::DATA, word);
    }
    at
}

// A packet: both preamble words with bit 15, and the data padded with zeros.
fn write_packet(ram: &mut [u8], dir: &mut [u16], c: Card, packet: &[u8]) -> Card
    requires { Sound c ram.old dir.old × (length packet.now ≤ 1514) }
    ensures { Stands result ram.new dir.new (after_writes (packet_words packet.now) (view c ram.old dir.old)) }
{
    let n = packet.len();
    let first = steps::write_word(ram, dir, c, driver_rules::DATA, COMPLETION + n as u16);
    let second = steps::write_word(ram, dir, first, driver_rules::DATA, 0);
    write_data(ram, dir, second, packet, judge::round_up(n) / 2)
}

// A refusal: card and driver as they came.
pub fn refused(c: Card, d: Driver, why: Refusal) -> After<u16>
    ensures { result ≡ record { card = c; driver = d; answer = Err why } }
{
    After {
        card: c,
        driver: d,
        answer: Err(why),
    }
}

// The ticket is the count of earlier packets modulo 65,536, and one more is unreported.
fn ticketed(c: Card, d: Driver) -> After<u16>
    requires { d.unreported ≤ 15 }
    ensures { result ≡ record { card = c; driver = sending d; answer = Ok d.sent } }
{
    let next = Driver {
        sent: d.sent.wrapping_add(1),
        unreported: d.unreported + 1,
        ..d
    };
    After {
        card: c,
        driver: next,
        answer: Ok(d.sent),
    }
}

// The tests of a send, in their order: the card after the two reads, where every test is passed.
fn tests(ram: &[u8], dir: &[u16], c: Card, d: Driver, packet: &[u8]) -> Result<Card, Refusal>
    requires { Sound c ram.now dir.now }
    ensures { Tests d packet.now c ram.now dir.now result }
{
    let n = packet.len();
    if !d.opened {
        return Err(Refusal::NeverOpened);
    }
    if judge::is_outside(n) {
        return Err(Refusal::LengthOutside);
    }
    if judge::sizes::MOST_UNREPORTED <= d.unreported {
        return Err(Refusal::SixteenUnreported);
    }
    let status = steps::read_word(ram, dir, c, driver_rules::STATUS);
    if judge::is_unfit(status.value) {
        return Err(Refusal::CardUnfit);
    }
    let free = steps::read_word(ram, dir, status.card, driver_rules::TX_FREE);
    if judge::lacks_room(free.value, n) {
        return Err(Refusal::NoRoom);
    }
    Ok(free.card)
}

// A packet is written only after every refusal was passed.
pub fn send(ram: &mut [u8], dir: &mut [u16], c: Card, d: Driver, packet: &[u8]) -> After<u16>
    requires { Sound c ram.old dir.old }
    ensures { Sends (run (send_talk d packet.now) (view c ram.old dir.old)) c ram.old dir.old result ram.new dir.new }
{
    match tests(ram, dir, c, d, packet) {
        Ok(passed) => {
            let end = write_packet(ram, dir, passed, packet);
            ticketed(end, d)
        }
        Err(why) => refused(c, d, why),
    }
}
