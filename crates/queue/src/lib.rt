#![tactic(auto)]
// The transmit FIFO's memory: the packets written whole, and the packet being written.
ghost use Rattle.std.specs.Prelude.{◌≡◌, ◌≤◌, length};
ghost use Rattle.transmit_rules.specs.Queue.{free};
ghost use Rattle.transmit_rules.specs.Write.{put};
ghost use Rattle.transmit_rules.specs.QueueView.{queue_of, Holds, Turns, sound_fifo};

use transmit_rules::Fifo;
// The packets lie in the last `size` bytes of `ram`, with a word for each in `dir` from `FIRST` on.
// Memory, directory, size and registers stay four parameters, as in `receive` (`reading.rt`).

mod good; // good.rt: the tests of soundness
pub mod leaving; // leaving.rt: the oldest packet leaves the transmit FIFO: what is wanted of it, and what the wire is told
mod telling; // telling.rt: the bytes told
mod words; // words.rt: a word of data for the packet being written

pub use leaving::{leave_first, oldest_wanted, tell};

// The bytes of the card's RAM.
const RAM: usize = 8192;

// The first directory word of the transmit area: those before it are the receiver's.
const FIRST: usize = 768;

// The longest packet.
const LONGEST: u16 = 1792;

// The test that a call makes of what it is handed.
pub fn fifo_sound(ram: &[u8], dir: &[u16], size: usize, f: Fifo) -> bool
    requires { (size ≤ 4096) × (8192 ≤ length ram.now) × (1110 ≤ length dir.now) }
    ensures { result ≡ sound_fifo size f ram.now dir.now }
{
    let (n, k) = (f.packets, f.words);
    if 341 < n {
        return false;
    }
    let used = store::used(dir, FIRST, n);
    if size < used {
        return false;
    }
    if 2048 < k {
        return false;
    }
    let whole = good::good_words(dir, n);
    let part = good::good_part(dir, n, k);
    (used + 4 * n + 2 * k <= size) & whole & part
}

// TX Free.
pub fn fifo_free(ram: &[u8], dir: &[u16], size: usize, f: Fifo) -> usize
    requires { Holds size f ram.now dir.now }
    ensures { result ≡ free size (queue_of size f ram.now dir.now) }
{
    size - (store::used(dir, FIRST, f.packets) + 4 * f.packets + 2 * f.words)
}

// The host writes a word.
pub fn put_word(ram: &mut [u8], dir: &mut [u16], size: usize, f: Fifo, v: u16) -> Fifo
    requires { Holds size f ram.old dir.old }
    ensures { Turns size result ram.old dir.old ram.new dir.new (put size v (queue_of size f ram.old dir.old)) }
{
    if f.failed {
        return f;
    }
    let used = store::used(dir, FIRST, f.packets);
    if size < used + 4 * f.packets + 2 * f.words + 2 {
        return Fifo { failed: true, ..f };
    }
    match f.words {
        0 => words::put_first(ram, dir, size, f, v),
        1 => Fifo { words: 2, ..f },
        k => words::put_data(ram, dir, size, f, RAM - size + used + 2 * (k - 2), v),
    }
}
