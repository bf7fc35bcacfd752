// What the host reads of the receive side, and the commands that drop frames: the unread bytes, RX Status, RX Complete, RX Free, the data read, RX Discard.
// Memory, directory, size and registers stay four parameters: a struct of them with `Sound` as a ghost field proves, but it makes each clause and each call longer, and what changes the memory cannot take it.
ghost use Rattle.std.specs.Prelude.{◌≡◌, ◌<◌, get_or};
ghost use Rattle.std.specs.Int.Signed.{mag};
ghost use Rattle.store.specs.Store as store;
ghost use Rattle.receive_rules.specs.Count.{encoded as encoded_of};
ghost use Rattle.receive_rules.specs.Reading.{unread_in, rx_status, complete, rx_free, oldest, pad_in, left_in, data_word, after_read, discard as discard_of, deafened};
ghost use Rattle.receive_rules.specs.View.{rx_area, frames_of, rx_of, Sound, Step};

use crate::{COMING, area};
use receive_rules::Receive;

// The unread bytes of the oldest frame: stored less read, below 0 once pad has been read.
pub fn unread(ram: &[u8], dir: &[u16], size: usize, r: Receive) -> i16
    requires { Sound size r ram.now dir.now }
    ensures { result ≡ unread_in r.receiver.read (frames_of size r.frames ram.now dir.now) }
{
    if r.frames == 0 {
        return 0;
    }
    (dir[0] % 2048) as i16 - r.receiver.read as i16
}

// Bits 10-0 of RX Status: the count in two's complement.
fn encoded(count: i16) -> u16
    requires { mag count < 2048 }
    ensures { (result ≡ encoded_of count) × (result < 2048) }
{
    if count < 0 {
        return (count + 2048) as u16;
    }
    count as u16
}

// RX Status shows the oldest frame.
pub fn rx_status(ram: &[u8], dir: &[u16], size: usize, r: Receive) -> u16
    requires { Sound size r ram.now dir.now }
    ensures { result ≡ rx_status r.receiver.read (frames_of size r.frames ram.now dir.now) }
{
    if r.frames == 0 {
        return COMING;
    }
    let w = dir[0];
    let told = encoded(unread(ram, dir, size, r));
    if COMING <= w {
        return COMING + told;
    }
    if 16384 <= w {
        return w - w % 2048 + told;
    }
    told
}

// RX Complete stands while the oldest frame is complete.
pub fn rx_complete(ram: &[u8], dir: &[u16], size: usize, r: Receive) -> bool
    requires { Sound size r ram.now dir.now }
    ensures { result ≡ complete (frames_of size r.frames ram.now dir.now) }
{
    if r.frames == 0 {
        return false;
    }
    dir[0] < COMING
}

// RX Free: the room that no stored frame takes.
pub fn rx_free(ram: &[u8], dir: &[u16], size: usize, r: Receive) -> usize
    requires { Sound size r ram.now dir.now }
    ensures { result ≡ rx_free size (frames_of size r.frames ram.now dir.now) }
{
    size - store::used(dir, 0, r.frames)
}

// A byte of the oldest frame, or 0 past its end.
fn oldest_byte(ram: &[u8], dir: &[u16], size: usize, count: usize, i: usize) -> u16
    requires { store.Sound (rx_area size) count ram.now dir.now × (0 < count) }
    ensures { (result ≡ get_or (oldest (frames_of size count ram.now dir.now)) i 0) × (result < 256) }
{
    let n = (dir[0] % 2048) as usize;
    if n <= i {
        return 0;
    }
    bits::wide(store::first_byte(ram, dir, area(size), count, i))
}

// The pad of the oldest frame, up to a length rounded to 4; none until its end.
fn pad(ram: &[u8], dir: &[u16], size: usize, count: usize) -> u16
    requires { store.Sound (rx_area size) count ram.now dir.now }
    ensures { (result ≡ pad_in (frames_of size count ram.now dir.now)) × (result < 4) }
{
    if count == 0 {
        return 0;
    }
    let w = dir[0];
    let ended = w < COMING;
    if ended {
        let n = w % 2048;
        return n.next_multiple_of(4) - n;
    }
    0
}

// The bytes left to read: the unread ones and the pad.
fn left(ram: &[u8], dir: &[u16], size: usize, r: Receive) -> i16
    requires { Sound size r ram.now dir.now }
    ensures { result ≡ left_in (rx_of size r ram.now dir.now) }
{
    unread(ram, dir, size, r) + pad(ram, dir, size, r.frames) as i16
}

// What a data read gives: the word, and the registers after it.
#[derive(Clone, Copy)]
pub struct Got {
    pub word: u16,
    pub receive: Receive,
}

// A data read takes a word. With fewer than two bytes left it is a receive failure, and while that stands it gives 0 and moves nothing.
pub fn read_data(ram: &[u8], dir: &[u16], size: usize, mut r: Receive) -> Got
    requires { Sound size r ram.now dir.now }
    ensures { (result.word ≡ data_word (rx_of size r ram.now dir.now)) × Step size result.receive ram.now dir.now ram.now dir.now (after_read (rx_of size r ram.now dir.now)) }
{
    if r.receiver.failed {
        return Got {
            word: 0,
            receive: r,
        };
    }
    let beyond = left(ram, dir, size, r) < 2;
    if beyond {
        r.receiver.failed = true;
        return Got {
            word: 0,
            receive: r,
        };
    }
    let at = r.receiver.read as usize;
    let low = oldest_byte(ram, dir, size, r.frames, at);
    let high = oldest_byte(ram, dir, size, r.frames, at + 1);
    r.receiver.read += 2;
    Got {
        word: low + 256 * high,
        receive: r,
    }
}

// RX Discard: the oldest frame leaves; of an unfinished one the rest is ignored too.
pub fn discard(ram: &mut [u8], dir: &mut [u16], size: usize, mut r: Receive) -> Receive
    requires { Sound size r ram.old dir.old }
    ensures { Step size result ram.old dir.old ram.new dir.new (discard_of (rx_of size r ram.old dir.old)) }
{
    if r.receiver.failed | (r.frames == 0) {
        return r;
    }
    let w = dir[0];
    store::drop_first(ram, dir, area(size), r.frames);
    r.frames -= 1;
    r.receiver.early = false;
    r.receiver.told = false;
    r.receiver.read = 0;
    if COMING <= w {
        r.receiver.wire = 1;
        return r;
    }
    r
}

// The rest of a begun frame is ignored.
pub fn deafen(wire: u8) -> u8
    ensures { result ≡ deafened wire }
{
    if wire == 2 {
        return 1;
    }
    wire
}
