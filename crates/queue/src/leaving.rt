// The oldest packet leaves the transmit FIFO: what is wanted of it, and what the wire is told.
ghost use Rattle.std.specs.Prelude.{◌≡◌, ◌*◌, ◌-◌, ◌≤◌, ◌<◌, length};
ghost use Rattle.transmit_rules.specs.Leave.{told_of, oldest_wanted, leave};
ghost use Rattle.transmit_rules.specs.QueueView.{queue_of, Holds, Turns, Tells};

use crate::{FIRST, RAM, telling};
use transmit_rules::Fifo;

// Whether completion is wanted of the oldest packet.
pub fn oldest_wanted(ram: &[u8], dir: &[u16], size: usize, f: Fifo) -> bool
    requires { Holds size f ram.now dir.now × (0 < f.packets) }
    ensures { result ≡ oldest_wanted (queue_of size f ram.now dir.now).packets }
{
    bits::has(dir[FIRST] / 2048, 16)
}

// What the wire is told of the oldest packet: the first bytes of `out`, as many as the answer says.
pub fn tell(ram: &[u8], dir: &[u16], size: usize, f: Fifo, out: &mut [u8]) -> usize
    requires { Holds size f ram.now dir.now × (0 < f.packets) × (1792 ≤ length out.old) }
    ensures { Tells result out.old out.new (told_of (queue_of size f ram.now dir.now).packets) }
{
    let w = dir[FIRST];
    let len = (w % 2048) as usize;
    let n = telling::told_length(w);
    telling::tell_bytes(ram, RAM - size, len, n, out);
    n
}

// The oldest packet leaves; those behind it move down, and what has come of the one being written.
pub fn leave_first(ram: &mut [u8], dir: &mut [u16], size: usize, f: Fifo) -> Fifo
    requires { Holds size f ram.old dir.old × (0 < f.packets) }
    ensures { Turns size result ram.old dir.old ram.new dir.new (leave (queue_of size f ram.old dir.old)) }
{
    let all = store::used(dir, FIRST, f.packets);
    let gone = store::room(dir[FIRST]);
    // The data bytes that have come of the one being written: two a word, but for the preamble's two words.
    let data = 2 * f.words.saturating_sub(2);
    store::shift(ram, RAM - size, gone, all - gone + data);
    store::shift(dir, FIRST, 1, f.packets);
    Fifo {
        packets: f.packets - 1,
        ..f
    }
}
