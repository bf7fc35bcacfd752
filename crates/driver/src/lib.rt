#![tactic(auto)]
// The driver's public calls: open, send, service and hand_up. Each tests the state it is handed, and no refusal changes anything.
ghost use Rattle.std.specs.Prelude.{◌≡◌, length, Err};
ghost use Rattle.driver_rules.specs.Calls.{sound_state, Opens, Sends, Services};
ghost use Rattle.driver_rules.specs.HandUp.{HandsUp};

use card_rules::Card;
use driver_rules::{After, Driver, Serviced};
use refusal::Refusal;

// The soundness of card and driver together.
fn is_sound(ram: &[u8], dir: &[u16], c: Card, d: Driver) -> bool
    requires { (length ram.now ≡ 8192) × (length dir.now ≡ 1110) }
    ensures { result ≡ sound_state c ram.now dir.now d }
{
    regs::is_sound(ram, dir, c) & judge::driver_sound(d)
}

// Open, with the address as words 00h-02h.
pub fn open(
    ram: &mut [u8; 8192],
    dir: &mut [u16; 1110],
    c: Card,
    d: Driver,
    w0: u16,
    w1: u16,
    w2: u16,
) -> After<()>
    ensures { Opens c ram.old dir.old d w0 w1 w2 result ram.new dir.new }
{
    if !is_sound(ram, dir, c, d) {
        return After {
            card: c,
            driver: d,
            answer: Err(Refusal::StateUnsound),
        };
    }
    opening::open(ram, dir, c, d, w0, w1, w2)
}

// Send a packet, without its check bytes.
pub fn send(
    ram: &mut [u8; 8192],
    dir: &mut [u16; 1110],
    c: Card,
    d: Driver,
    packet: &[u8],
) -> After<u16>
    ensures { Sends c ram.old dir.old d packet.now result ram.new dir.new }
{
    if !is_sound(ram, dir, c, d) {
        return sending::refused(c, d, Refusal::StateUnsound);
    }
    sending::send(ram, dir, c, d, packet)
}

// A service refused before its first access.
fn refused(c: Card, d: Driver, why: Refusal) -> Serviced
    ensures { result ≡ record { card = c; driver = d; answer = Err why; used = 0 } }
{
    Serviced {
        card: c,
        driver: d,
        answer: Err(why),
        used: 0,
    }
}

// Service, with at most `budget` accesses. A frame lands in the lookahead area or in the frame area.
pub fn service(
    ram: &mut [u8; 8192],
    dir: &mut [u16; 1110],
    c: Card,
    d: Driver,
    budget: u16,
    ahead: &mut [u8],
    frame: &mut [u8],
) -> Serviced
    ensures { Services c ram.old dir.old d budget ahead.old frame.old result ram.new dir.new ahead.new frame.new }
{
    if !is_sound(ram, dir, c, d) {
        return refused(c, d, Refusal::StateUnsound);
    }
    if !d.opened {
        return refused(c, d, Refusal::NeverOpened);
    }
    if ahead.len() < judge::sizes::LOOKAHEAD_AREA {
        return refused(c, d, Refusal::AreaShort);
    }
    if frame.len() < judge::sizes::FRAME_AREA {
        return refused(c, d, Refusal::AreaShort);
    }
    service::serve(ram, dir, c, d, ahead, frame, usize::from(budget))
}

// The part of the areas that a frame of n bytes was handed up in; empty if its area does not hold n bytes.
pub fn hand_up<'a>(ahead: &'a [u8], frame: &'a [u8], n: usize) -> &'a [u8]
    ensures { HandsUp ahead.entry frame.entry n result }
{
    let area = if n <= judge::sizes::LOOKAHEAD_AREA {
        ahead
    } else {
        frame
    };
    if n <= area.len() {
        &area[..n]
    } else {
        &area[..0]
    }
}
