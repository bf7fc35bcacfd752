// The tests of the card's public calls on what they are handed. Each answers as its definition does: the state's refusal, the call's own, or none.
ghost use Rattle.std.specs.Prelude.{◌≡◌, true};
ghost use Rattle.refusal.specs.declared.Refusal.TheVariants.{StateUnsound, OutOfTurn, ArgumentOutside};
ghost use Rattle.port_rules.specs.Sound as id;
ghost use Rattle.transmit_rules.specs.Tx as tx;
ghost use Rattle.card_rules.specs.Tests as paper;
ghost use Rattle.card_rules.specs.View.{view, sound_card};
ghost use Rattle.card_rules.specs.Calls.{tested};

use card_rules::Card;
use port_rules::IdState;
use refusal::Refusal;

// Refusal 1 of an unsound state, else the call's own where its test fails.
fn allowed(sound: bool, ok: bool, own: Refusal) -> Result<(), Refusal>
    ensures { result ≡ tested sound ok own }
{
    if !sound {
        return Err(Refusal::StateUnsound);
    }
    if !ok {
        return Err(own);
    }
    Ok(())
}

// Nothing but a sound state is asked.
pub fn sound(ram: &[u8; 8192], dir: &[u16; 1110], c: Card) -> Result<(), Refusal>
    ensures { result ≡ tested (sound_card c ram.now dir.now) true StateUnsound }
{
    allowed(regs::is_sound(ram, dir, c), true, Refusal::StateUnsound)
}

// May a word be read or written at this offset?
pub fn word(ram: &[u8; 8192], dir: &[u16; 1110], c: Card, o: u16) -> Result<(), Refusal>
    ensures { result ≡ tested (sound_card c ram.now dir.now) (paper.is_word o) ArgumentOutside }
{
    let ok = (o <= 15) & (o % 2 == 0);
    allowed(regs::is_sound(ram, dir, c), ok, Refusal::ArgumentOutside)
}

// May a byte be read or written at this offset in the window that is selected?
pub fn byte(ram: &[u8; 8192], dir: &[u16; 1110], c: Card, o: u16) -> Result<(), Refusal>
    ensures { result ≡ tested (sound_card c ram.now dir.now) (paper.is_byte c.select.window o) ArgumentOutside }
{
    let ok = (o <= 15) & !((o < 4) & (c.select.window == 1));
    allowed(regs::is_sound(ram, dir, c), ok, Refusal::ArgumentOutside)
}

// May the wire start a frame?
pub fn off_wire(ram: &[u8; 8192], dir: &[u16; 1110], c: Card) -> Result<(), Refusal>
    ensures { result ≡ tested (sound_card c ram.now dir.now) (paper.off_wire c.receive.receiver.wire) OutOfTurn }
{
    let ok = c.receive.receiver.wire == 0;
    allowed(regs::is_sound(ram, dir, c), ok, Refusal::OutOfTurn)
}

// May the wire bring a byte, or end a frame?
pub fn on_wire(ram: &[u8; 8192], dir: &[u16; 1110], c: Card) -> Result<(), Refusal>
    ensures { result ≡ tested (sound_card c ram.now dir.now) (paper.on_wire c.receive.receiver.wire) OutOfTurn }
{
    let ok = c.receive.receiver.wire != 0;
    allowed(regs::is_sound(ram, dir, c), ok, Refusal::OutOfTurn)
}

// Is a send outcome possible?
pub fn ready(ram: &[u8; 8192], dir: &[u16; 1110], c: Card) -> Result<(), Refusal>
    ensures { result ≡ tested (sound_card c ram.now dir.now) (tx.ready (view c ram.now dir.now).tx) OutOfTurn }
{
    let ok = transmit::is_ready(c.transmit);
    allowed(regs::is_sound(ram, dir, c), ok, Refusal::OutOfTurn)
}

// May this ID state be seated? An unsound one is refused as the card's own is.
pub fn seats(ram: &[u8; 8192], dir: &[u16; 1110], c: Card, i: IdState) -> Result<(), Refusal>
    ensures { result ≡ tested (sound_card c ram.now dir.now) (id.id_sound i) StateUnsound }
{
    let ok = idport::id_sound(i);
    allowed(regs::is_sound(ram, dir, c), ok, Refusal::StateUnsound)
}
