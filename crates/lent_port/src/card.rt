// One card by itself, access by access: it sees each byte that is written and hears each bit that the bus carries. A port is its x in 1x0h.
ghost use Rattle.std.specs.Prelude.{◌≡◌, ◌+◌, ◌<◌};
ghost use Rattle.port_rules.specs.Card.{id_write};
ghost use Rattle.found.specs.OneCard.{heard};
ghost use Rattle.lent_port.specs.Roll.{called_up, hears};

use idport::{byte_at, id_after_read, id_write};
use port_rules::IdState;

// Two zeros, sequence.
pub fn call_up(card: IdState, x: u8) -> IdState
    ensures { result ≡ called_up x card }
{
    let once = id_write(card, x, 0);
    let mut s = id_write(once, x, 0);
    for i in 0..255 {
        s = id_write(s, x, byte_at(i));
    }
    s
}

// Sixteen reads, in which the bus carries a word, its highest bit first.
fn hear_word(card: IdState, x: u8, word: u16) -> IdState
    ensures { result ≡ heard x 16 word card }
{
    let mut s = card;
    let mut w = word;
    for _i in 0..16usize {
        s = id_after_read(s, x, (w >> 15) as u8);
        w = w << 1;
    }
    s
}

// For words 00h, 01h, 02h a read command and 16 reads, in which the bus carries an address.
#[tactic(auto, unfolding(crate::specs::Roll::hears))]
pub fn hear(card: IdState, x: u8, address: u64) -> IdState
    ensures { result ≡ hears x address card }
{
    let asked0 = id_write(card, x, 0x80);
    let told0 = hear_word(asked0, x, (address / 65536 / 65536 % 65536) as u16);
    let asked1 = id_write(told0, x, 0x81);
    let told1 = hear_word(asked1, x, (address / 65536 % 65536) as u16);
    let asked2 = id_write(told1, x, 0x82);
    hear_word(asked2, x, (address % 65536) as u16)
}

// A round that reads an address and sets a tag.
pub fn round(card: IdState, x: u8, address: u64, tag: u8) -> IdState
    requires { tag < 8 }
    ensures { result ≡ id_write (hears x address (called_up x card)) x (0xD0 + tag) }
{
    let called = call_up(card, x);
    let left = hear(called, x, address);
    id_write(left, x, 0xD0 + tag)
}
