#![tactic(auto)]
// Long random runs of the public card calls, sensible and senseless. It prints how many calls were done and how many were refused, and a sum over all values read.
use card_rules::{After, Card};
use port_rules::IdState;
use refusal::Refusal;
use std::io;

// The next of a row of pseudo-random numbers.
fn next(x: u32) -> u32 {
    x.wrapping_mul(1_103_515_245).wrapping_add(12_345)
}

// What the calls have given so far: how many were done and how many refused, and the sum over the values.
#[derive(Clone, Copy)]
pub struct Tally {
    pub done: u64,
    pub refused: u64,
    pub sum: u64,
}

#[derive(Clone, Copy)]
pub struct Bench {
    pub card: Card,
    pub tally: Tally,
}

// The bench after a call: done, and its value counts as this number, or refused.
fn after<T: Drop, F: FnOnce(T) -> u64>(t: Tally, r: After<T>, number: F) -> Bench
    requires { F.IsAlwaysCallable number }
{
    let After { card, answer } = r;
    let tally = counted(t, answer.map(number));
    Bench { card, tally }
}

fn counted(t: Tally, answer: Result<u64, Refusal>) -> Tally {
    match answer {
        Ok(value) => Tally {
            done: t.done.wrapping_add(1),
            sum: t.sum.wrapping_mul(31).wrapping_add(value) % 1_000_003,
            ..t
        },
        Err(_) => Tally {
            refused: t.refused.wrapping_add(1),
            ..t
        },
    }
}

fn read(t: Tally, r: After<u16>) -> Bench {
    after(t, r, |value| value as u64)
}

fn called(t: Tally, r: After<()>) -> Bench {
    after(t, r, |_| 1)
}

// A host's access; `kind` is drawn by chance, and so it is a number.
fn access(
    ram: &mut [u8; 8192],
    dir: &mut [u16; 1110],
    b: Bench,
    kind: u32,
    o: u16,
    v: u16,
) -> Bench {
    let (c, t) = (b.card, b.tally);
    match kind {
        0 => read(t, card::read_word(ram, dir, c, o)),
        1 => read(t, card::read_byte(ram, dir, c, o)),
        2 => called(t, card::write_word(ram, dir, c, o, v)),
        _ => called(t, card::write_byte(ram, dir, c, o, (v % 256) as u8)),
    }
}

// An event of the wire, or a send outcome; `kind` is drawn, too.
fn event(
    ram: &mut [u8; 8192],
    dir: &mut [u16; 1110],
    out: &mut [u8; 1792],
    b: Bench,
    kind: u32,
    v: u16,
) -> Bench {
    let (c, t) = (b.card, b.tally);
    match kind {
        0 => called(t, card::wire_start(ram, dir, c, [255; 8])),
        1 => called(t, card::wire_end(ram, dir, c, v % 8 != 0, v % 16 != 1)),
        2 => after(t, card::success(ram, dir, c, out), |n| n as u64),
        3 => called(t, card::collisions(ram, dir, c)),
        _ => called(t, card::wire_byte(ram, dir, c, (v % 256) as u8)),
    }
}

// One random call; offsets reach past 0Fh, and commands are frequent.
fn turn(
    ram: &mut [u8; 8192],
    dir: &mut [u16; 1110],
    out: &mut [u8; 1792],
    b: Bench,
    x: u32,
    y: u32,
) -> Bench {
    let v = (y / 65_536) as u16;
    let o = (x / 65_536 % 20) as u16;
    match x / 2_097_152 % 16 {
        kind @ 0..=3 => access(ram, dir, b, kind, o, v),
        4..=6 => access(ram, dir, b, 2, 14, v),
        7..=8 => access(ram, dir, b, 2, 14, 2049),
        9..=14 => event(ram, dir, out, b, x / 33_554_432 % 16, v),
        _ => awaken(ram, dir, b),
    }
}

// The ID port activates the card: a Global Reset among the random commands puts it to sleep.
fn awaken(ram: &[u8; 8192], dir: &[u16; 1110], b: Bench) -> Bench {
    let id = IdState {
        active: true,
        ..b.card.id
    };
    called(b.tally, card::seat(ram, dir, b.card, id))
}

fn main(rt: HostRuntime) -> io::Result<()> {
    let mut ram = [0u8; 8192];
    let mut dir = [0u16; 1110];
    let mut out = [0u8; 1792];
    let mut b = Bench {
        card: card::power_on([0x1234; 64]),
        tally: Tally {
            done: 0,
            refused: 0,
            sum: 0,
        },
    };
    let mut x = 1;
    for _ in 0..300_000 {
        let y = next(x);
        x = next(y);
        b = turn(&mut ram, &mut dir, &mut out, b, y, x);
    }
    let Tally { done, refused, sum } = b.tally;
    println!(rt; "done {done}\nrefused {refused}\nsum {sum}")
}
