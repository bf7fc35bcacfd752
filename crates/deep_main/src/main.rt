#![tactic(auto)]
// The worst cases of a service's stack: a damaged frame that cannot be discarded, and 768 damaged frames of 8 bytes. It writes the accesses used by each.
use card_rules::Card;
use driver_rules::Driver;
use std::io;

// A power-on card, active in window 1.
fn active() -> Card {
    let mut c = regs::power_on([0; 64], 0);
    c.id.active = true;
    c.select.window = 1;
    c
}

// The accesses that a service at the largest budget uses.
fn used(c: Card, dir: &mut [u16; 1110]) -> usize {
    let d = Driver {
        opened: true,
        sent: 0,
        unreported: 0,
        error: false,
    };
    let mut ram = [0u8; 8192];
    let mut ahead = [0u8; 256];
    let mut frame = [0u8; 1514];
    let s = driver::service(&mut ram, dir, c, d, 65535, &mut ahead, &mut frame);
    s.used
}

// Adapter Failure stands and is hidden by the Read Zero mask, so that RX Discard does nothing: look and receive go round until the budget ends.
fn stuck() -> usize {
    let mut c = active();
    c.select.zero = 0x10;
    c.receive.receiver.failed = true;
    c.receive.frames = 1;
    let mut dir = [0u16; 1110];
    dir[0] = 0x683c;
    used(c, &mut dir)
}

// The 6,144-byte store is full of frames of 8 bytes, each shorter than 60.
fn crowded() -> usize {
    let mut c = active();
    c.select.zero = 0x10;
    c.config.second = 1;
    c.receive.frames = 768;
    let mut dir = [0x5808u16; 1110];
    used(c, &mut dir)
}

fn write_number(rt: &HostRuntime, n: usize) -> io::Result<()> {
    rt.println(n)
}

fn main(rt: HostRuntime) -> io::Result<()> {
    write_number(&rt, stuck())?;
    write_number(&rt, crowded())
}
