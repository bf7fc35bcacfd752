// The wire: a frame's start with its first 8 bytes, its single bytes, and its end.
ghost use Rattle.std.specs.Prelude.{◌≡◌, true, ◌<◌, ◌≤◌, ◌%◌, leb};
ghost use Rattle.store.specs.Store.{at_newest};
ghost use Rattle.store.specs.Store as store;
ghost use Rattle.receive_rules.specs.Wire.{address, passes, wire_start, fits, takes, wire_byte, ending, wire_end};
ghost use Rattle.receive_rules.specs.Sound.{in_order};
ghost use Rattle.receive_rules.specs.View.{state_of, rx_area, frames_of, rx_of, Sound, Turns, Step};

use crate::{LONGEST, OVERRUN, area};
use receive_rules::Receive;

// Whether the first six bytes are an address.
fn addressed(first: [u8; 8], a: [u8; 6]) -> bool
    ensures { result ≡ address a first }
{
    first[..6] == a[..]
}

// Whether the filter takes a frame with these first bytes.
pub fn passes_filter(filter: u16, station: [u8; 6], first: [u8; 8]) -> bool
    ensures { result ≡ passes filter station first }
{
    bits::has(filter, 8)
        | bits::has(filter, 4) & addressed(first, [255; 6])
        | bits::has(filter, 2) & bits::has(bits::wide(first[0]), 1)
        | bits::has(filter, 1) & addressed(first, station)
}

// A frame starts. It is stored if it is taken, the receiver is on and 8 bytes fit; else it is ignored to its end.
pub fn wire_start(
    ram: &mut [u8],
    dir: &mut [u16],
    size: usize,
    mut r: Receive,
    taken: bool,
    first: [u8; 8],
) -> Receive
    requires { Sound size r ram.old dir.old × (r.receiver.wire ≡ 0) }
    ensures { Step size result ram.old dir.old ram.new dir.new (wire_start size taken first (rx_of size r ram.old dir.old)) }
{
    let used = store::used(dir, 0, r.frames);
    if taken & (r.receiver.on & (used + 8 <= size)) {
        let a = area(size);
        store::begin(ram, dir, a, r.frames, 16);
        r.frames += 1;
        store::append_bytes(ram, dir, a, r.frames, used, &first);
        r.receiver.wire = 2;
        return r;
    }
    r.receiver.wire = 1;
    r
}

// A byte for the newest frame, which is coming: dropped after an overrun and past 1,792; without room it marks the frame.
fn store_byte(ram: &mut [u8], dir: &mut [u16], size: usize, count: usize, b: u8)
    requires { store.Sound (rx_area size) count ram.old dir.old × (0 < count) × (size ≤ 6144) × (in_order true (frames_of size count ram.old dir.old) ≡ true) }
    ensures { Turns size ram.old dir.old ram.new dir.new count (at_newest (takes b (fits size b (frames_of size count ram.old dir.old))) (frames_of size count ram.old dir.old)) }
{
    let a = area(size);
    let last = dir[count - 1];
    let n = (last % 2048) as usize;
    if (OVERRUN <= last) | (LONGEST <= last % 2048) {
        return;
    }
    let older = store::used(dir, 0, count) - store::room(last);
    if size < older + (n + 1).next_multiple_of(4) {
        store::set_head(ram, dir, a, count, 24);
        return;
    }
    store::append_byte(ram, dir, a, count, older + n, b);
}

// A byte of a frame. That of a frame that is ignored changes nothing.
pub fn wire_byte(ram: &mut [u8], dir: &mut [u16], size: usize, r: Receive, b: u8)
    requires { Sound size r ram.old dir.old }
    ensures { Step size r ram.old dir.old ram.new dir.new (wire_byte size b (rx_of size r ram.old dir.old)) }
{
    if r.receiver.wire == 2 {
        store_byte(ram, dir, size, r.frames, b);
    }
}

// Bits 15 to 11 of the word of a frame that ends. Codes, first that holds wins.
fn end_head(last: u16, check: bool, alignment: bool) -> u16
    ensures { (state_of result ≡ ending (leb 49152 last) (last % 2048) check alignment) × (result < 32) }
{
    let n = last % 2048;
    if OVERRUN <= last {
        return 8;
    }
    if 1514 < n {
        return 9;
    }
    if n < 60 {
        return 11;
    }
    if !alignment {
        return 12;
    }
    if !check {
        return 13;
    }
    0
}

// A frame ends, and the wire is idle.
pub fn wire_end(
    ram: &[u8],
    dir: &mut [u16],
    size: usize,
    mut r: Receive,
    check: bool,
    alignment: bool,
) -> Receive
    requires { Sound size r ram.now dir.old }
    ensures { Step size result ram.now dir.old ram.now dir.new (wire_end check alignment (rx_of size r ram.now dir.old)) }
{
    let stored = r.receiver.wire == 2;
    r.receiver.wire = 0;
    if stored {
        let last = dir[r.frames - 1];
        store::set_head(
            ram,
            dir,
            area(size),
            r.frames,
            end_head(last, check, alignment),
        );
    }
    r
}
