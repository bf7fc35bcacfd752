// The receive side of the card: its registers, the frames stored, RX Early, and the test of its soundness.
ghost use Rattle.std.specs.Prelude.{◌≡◌, ◌≤◌, ◌<◌, length};
ghost use Rattle.store.specs.Store as store;
ghost use Rattle.receive_rules.specs.Reading.{readable};
ghost use Rattle.receive_rules.specs.Early.{settle_early};
ghost use Rattle.receive_rules.specs.Sound.{in_order, early_settled};
ghost use Rattle.receive_rules.specs.View.{rx_area, frames_of, rx_of, Packed, Step, sound_side, all_ended};

use crate::{COMING, EARLY_LEAST, LONGEST, SLOTS};
use receive_rules::{Receive, Receiver};

// RX Early, at the end of every step.
pub fn settle_early(ram: &[u8], dir: &[u16], size: usize, mut r: Receive) -> Receive
    requires { Packed size r ram.now dir.now }
    ensures { Step size result ram.now dir.now ram.now dir.now (settle_early (rx_of size r ram.now dir.now)) }
{
    if r.frames == 0 {
        r.receiver.early = false;
        r.receiver.told = false;
        return r;
    }
    let w = dir[0];
    let coming = COMING <= w;
    let due = (r.receiver.threshold <= w % 2048) & !r.receiver.told;
    r.receiver.early = coming & (due | r.receiver.early);
    r.receiver.told = coming & (due | r.receiver.told);
    r
}

// The bytes that may be read of the oldest frame.
fn readable_bytes(ram: &[u8], dir: &[u16], size: usize, count: usize) -> u16
    requires { store.Sound (rx_area size) count ram.now dir.now }
    ensures { (result ≡ readable (frames_of size count ram.now dir.now)) × (result < 2049) }
{
    if count == 0 {
        return 0;
    }
    let w = dir[0];
    let n = w % 2048;
    if COMING <= w {
        return n;
    }
    n.next_multiple_of(4)
}

// Whether every one of `count` frames has 8 to 1,792 bytes and has ended.
fn all_ended(dir: &[u16], count: usize) -> bool
    requires { count ≤ length dir.now }
    ensures { result ≡ all_ended (store.part 0 count dir.now) }
{
    let mut good = true;
    for &w in &dir[..count] {
        good = good & ((8 <= w % 2048) & (w % 2048 <= LONGEST) & (w < COMING));
    }
    good
}

// Whether only the newest frame is coming, and it is just while the wire stores it.
fn in_order(ram: &[u8], dir: &[u16], size: usize, count: usize, storing: bool) -> bool
    requires { store.Sound (rx_area size) count ram.now dir.now }
    ensures { result ≡ in_order storing (frames_of size count ram.now dir.now) }
{
    if !storing {
        return all_ended(dir, count);
    }
    if count == 0 {
        return false;
    }
    let w = dir[count - 1];
    let n = w % 2048;
    all_ended(dir, count - 1) & ((8 <= n) & (n <= LONGEST) & (COMING <= w))
}

// Whether RX Early was set for the oldest frame if it is due, and for no other.
pub fn early_settled(ram: &[u8], dir: &[u16], size: usize, count: usize, r: Receiver) -> bool
    requires { store.Sound (rx_area size) count ram.now dir.now }
    ensures { result ≡ early_settled r (frames_of size count ram.now dir.now) }
{
    if count == 0 {
        return !r.told;
    }
    let w = dir[0];
    if w < COMING {
        return !r.told;
    }
    r.told | (w % 2048 < r.threshold)
}

// The test of soundness that every public call makes of the receive side.
pub fn rx_sound(ram: &[u8], dir: &[u16], size: usize, r: Receive) -> bool
    requires { (size ≤ 6144) × (6144 ≤ length ram.now) × (768 ≤ length dir.now) }
    ensures { result ≡ sound_side size r ram.now dir.now }
{
    let a = r.receiver;
    let count = r.frames;
    if SLOTS < count {
        return false;
    }
    if size < store::used(dir, 0, count) {
        return false;
    }
    let ordered = in_order(ram, dir, size, count, a.wire == 2);
    let have = readable_bytes(ram, dir, size, count);
    let settled = early_settled(ram, dir, size, count, a);
    (a.wire <= 2)
        & ordered
        & (a.read <= have)
        & ((EARLY_LEAST <= a.threshold) & (a.threshold <= 2047))
        & (a.told | !a.early)
        & settled
}
