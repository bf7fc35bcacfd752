// The card's calls.
ghost use Rattle.abi.specs.Cards as says;

use card_rules::Card;
use codes::{CardDone, CardLine, CardRead, CardRxStatus, CardTold};
use port_rules::IdState;

// A card at power-on with these EEPROM words.
#[unsafe(no_mangle)]
pub extern "C" fn seamtrout_card_power_on(words: &[u16; 64]) -> Card
    ensures { says.PowersOn words.now result }
{
    card::power_on(*words)
}

// The host reads a word.
#[unsafe(no_mangle)]
pub extern "C" fn seamtrout_card_read_word(
    ram: &[u8; 8192],
    dir: &[u16; 1110],
    c: Card,
    o: u16,
) -> CardRead
    ensures { says.ReadsWord c ram.now dir.now o result }
{
    codes::coded_read(card::read_word(ram, dir, c, o))
}

// The host reads a byte.
#[unsafe(no_mangle)]
pub extern "C" fn seamtrout_card_read_byte(
    ram: &[u8; 8192],
    dir: &[u16; 1110],
    c: Card,
    o: u16,
) -> CardRead
    ensures { says.ReadsByte c ram.now dir.now o result }
{
    codes::coded_read(card::read_byte(ram, dir, c, o))
}

// The host writes a word.
#[unsafe(no_mangle)]
pub extern "C" fn seamtrout_card_write_word(
    ram: &mut [u8; 8192],
    dir: &mut [u16; 1110],
    c: Card,
    o: u16,
    v: u16,
) -> CardDone
    ensures { says.WritesWord c ram.old dir.old o v result ram.new dir.new }
{
    codes::coded_done(card::write_word(ram, dir, c, o, v))
}

// The host writes a byte.
#[unsafe(no_mangle)]
pub extern "C" fn seamtrout_card_write_byte(
    ram: &mut [u8; 8192],
    dir: &mut [u16; 1110],
    c: Card,
    o: u16,
    v: u8,
) -> CardDone
    ensures { says.WritesByte c ram.old dir.old o v result ram.new dir.new }
{
    codes::coded_done(card::write_byte(ram, dir, c, o, v))
}

// The wire starts a frame with its first 8 bytes.
#[unsafe(no_mangle)]
pub extern "C" fn seamtrout_card_wire_start(
    ram: &mut [u8; 8192],
    dir: &mut [u16; 1110],
    c: Card,
    first: &[u8; 8],
) -> CardDone
    ensures { says.Starts c ram.old dir.old first.now result ram.new dir.new }
{
    codes::coded_done(card::wire_start(ram, dir, c, *first))
}

// The wire brings a byte.
#[unsafe(no_mangle)]
pub extern "C" fn seamtrout_card_wire_byte(
    ram: &mut [u8; 8192],
    dir: &mut [u16; 1110],
    c: Card,
    b: u8,
) -> CardDone
    ensures { says.Brings c ram.old dir.old b result ram.new dir.new }
{
    codes::coded_done(card::wire_byte(ram, dir, c, b))
}

// The wire ends the frame: check sequence good, alignment good.
#[unsafe(no_mangle)]
pub extern "C" fn seamtrout_card_wire_end(
    ram: &mut [u8; 8192],
    dir: &mut [u16; 1110],
    c: Card,
    check: bool,
    alignment: bool,
) -> CardDone
    ensures { says.Ends c ram.old dir.old check alignment result ram.new dir.new }
{
    codes::coded_done(card::wire_end(ram, dir, c, check, alignment))
}

// A send outcome: success.
#[unsafe(no_mangle)]
pub extern "C" fn seamtrout_card_sent(
    ram: &mut [u8; 8192],
    dir: &mut [u16; 1110],
    c: Card,
    out: &mut [u8; 1792],
) -> CardTold
    ensures { says.Succeeds c ram.old dir.old out.old result ram.new dir.new out.new }
{
    codes::coded_told(card::success(ram, dir, c, out))
}

// A send outcome: 16 collisions.
#[unsafe(no_mangle)]
pub extern "C" fn seamtrout_card_collided(
    ram: &mut [u8; 8192],
    dir: &mut [u16; 1110],
    c: Card,
) -> CardDone
    ensures { says.Collides c ram.old dir.old result ram.new dir.new }
{
    codes::coded_done(card::collisions(ram, dir, c))
}

// An ID state, as the ID port left it, is seated as the card's own.
#[unsafe(no_mangle)]
pub extern "C" fn seamtrout_card_seat(
    ram: &[u8; 8192],
    dir: &[u16; 1110],
    c: Card,
    i: IdState,
) -> CardDone
    ensures { says.Seats c ram.now dir.now i result }
{
    codes::coded_done(card::seat(ram, dir, c, i))
}

// The interrupt line that the card drives, 0 for none.
#[unsafe(no_mangle)]
pub extern "C" fn seamtrout_card_interrupt_line(
    ram: &[u8; 8192],
    dir: &[u16; 1110],
    c: Card,
) -> CardLine
    ensures { says.Drives c ram.now dir.now result }
{
    codes::coded_line(card::interrupt_line(ram, dir, c))
}

// RX Status, whatever window is selected, and the unread bytes.
#[unsafe(no_mangle)]
pub extern "C" fn seamtrout_card_rx_status(
    ram: &[u8; 8192],
    dir: &[u16; 1110],
    c: Card,
) -> CardRxStatus
    ensures { says.Shows c ram.now dir.now result }
{
    codes::coded_rx_status(card::rx_status(ram, dir, c))
}
