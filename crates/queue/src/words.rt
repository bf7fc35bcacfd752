// The packet being written.
ghost use Rattle.std.specs.Prelude.{◌≡◌, false, ◌+◌, ◌*◌, ◌-◌, ◌≤◌};
ghost use Rattle.store.specs.Store.{room_of, part};
ghost use Rattle.transmit_rules.specs.Queue.{free};
ghost use Rattle.transmit_rules.specs.Write.{put, with_part, written, completed};
ghost use Rattle.transmit_rules.specs.QueueView.{queue_of, Holds, Turns};

use crate::{FIRST, LONGEST};
use transmit_rules::Fifo;

// The first word of the preamble, with the packet's length; it becomes the packet's directory word.
pub fn put_first(ram: &[u8], dir: &mut [u16], size: usize, f: Fifo, v: u16) -> Fifo
    requires { Holds size f ram.now dir.old × (f.failed ≡ false) × (f.words ≡ 0) × (2 ≤ free size (queue_of size f ram.now dir.old)) }
    ensures { Turns size result ram.now dir.old ram.now dir.new (put size v (queue_of size f ram.now dir.old)) }
{
    let len = v % 2048;
    if (6 <= len) & (len <= LONGEST) {
        dir[FIRST + f.packets] = v;
        return Fifo { words: 1, ..f };
    }
    Fifo { failed: true, ..f }
}

// A word of data; its two bytes go to `at`, the low one first.
pub fn put_data(ram: &mut [u8], dir: &[u16], size: usize, f: Fifo, at: usize, v: u16) -> Fifo
    requires holds { Holds size f ram.old dir.now × (2 ≤ f.words) × (2 ≤ free size (queue_of size f ram.old dir.now)) }
    requires at_value { at ≡ 8192 - size + room_of (part 768 f.packets dir.now) + 2 * (f.words - 2) }
    ensures { Turns size result ram.old dir.now ram.new dir.now (completed (with_part (written v (queue_of size f ram.old dir.now).part) (queue_of size f ram.old dir.now))) }
{
    ram[at] = (v % 256) as u8;
    ram[at + 1] = (v / 256) as u8;
    let room = store::room(dir[FIRST + f.packets]);
    if 2 * f.words == room + 2 {
        return Fifo {
            packets: f.packets + 1,
            words: 0,
            ..f
        };
    }
    Fifo {
        words: f.words + 1,
        ..f
    }
}
