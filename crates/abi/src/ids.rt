// One card on the ID port. The host's reads are a wired-and over all cards: each tells what it drives, and hears what the bus carried.
ghost use Rattle.std.specs.Prelude.{◌≡◌, true};
ghost use Rattle.refusal.specs.declared.Refusal.TheVariants.{ArgumentOutside};
ghost use Rattle.port_rules.specs.Sound.{id_sound};
ghost use Rattle.port_rules.specs.Gathered.{is_port};
ghost use Rattle.card_rules.specs.View.{sound_card};
ghost use Rattle.card_rules.specs.Calls.{tested};
ghost use Rattle.abi.specs.Ids as says;

use card_rules::Card;
use codes::CardDone;
use port_rules::IdState;
use refusal::Refusal;

// The bit that a card drives, and the code.
#[repr(C)]
#[derive(Clone, Copy)]
pub struct CardBit {
    pub bit: u8,
    pub code: u8,
}

// Refusal 1 of an unsound state, and 12 of a port that is not 1x0h.
fn tested(ram: &[u8; 8192], dir: &[u16; 1110], c: Card, port: u16) -> Result<(), Refusal>
    ensures { result ≡ tested (sound_card c ram.now dir.now) (is_port port) ArgumentOutside }
{
    if !regs::is_sound(ram, dir, c) {
        return Err(Refusal::StateUnsound);
    }
    if !idport::is_port(port) {
        return Err(Refusal::ArgumentOutside);
    }
    Ok(())
}

// The ID state that a step at the port left is seated, unless the call is refused.
fn seated(ram: &[u8; 8192], dir: &[u16; 1110], c: Card, port: u16, i: IdState) -> CardDone
    requires { id_sound c.id ≡ true → id_sound i ≡ true }
    ensures { says.Seated (says.refusal c ram.now dir.now port) i c ram.now dir.now result }
{
    if let Err(why) = tested(ram, dir, c, port) {
        return CardDone {
            card: c,
            code: refusal::number(why),
        };
    }
    let card = steps::seat(ram, dir, c, i);
    CardDone { card, code: 0 }
}

// A byte written to the ID port, as this card sees it.
#[unsafe(no_mangle)]
pub extern "C" fn seamtrout_card_id_write(
    ram: &[u8; 8192],
    dir: &[u16; 1110],
    c: Card,
    port: u16,
    byte: u8,
) -> CardDone
    ensures { says.Writes c ram.now dir.now port byte result }
{
    let i = idport::written(c.id, port, byte);
    seated(ram, dir, c, port, i)
}

// The bit that this card drives when the port is read; 1 if it drives none.
#[unsafe(no_mangle)]
pub extern "C" fn seamtrout_card_id_bit(
    ram: &[u8; 8192],
    dir: &[u16; 1110],
    c: Card,
    port: u16,
) -> CardBit
    ensures { result ≡ says.bit_of c ram.now dir.now port }
{
    if let Err(why) = tested(ram, dir, c, port) {
        return CardBit {
            bit: 0,
            code: refusal::number(why),
        };
    }
    CardBit {
        bit: idport::bit(c.id, port),
        code: 0,
    }
}

// The port was read, and the bus carried `bus` (0, or else 1): this card's part in the contention.
#[unsafe(no_mangle)]
pub extern "C" fn seamtrout_card_id_hear(
    ram: &[u8; 8192],
    dir: &[u16; 1110],
    c: Card,
    port: u16,
    bus: u8,
) -> CardDone
    ensures { says.Hears c ram.now dir.now port bus result }
{
    let i = idport::heard(c.id, port, bus.min(1));
    seated(ram, dir, c, port, i)
}
