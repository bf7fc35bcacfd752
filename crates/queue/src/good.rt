// The directory's part in the soundness of the transmit FIFO.
ghost use Rattle.std.specs.Prelude.{◌≡◌, ◌&&◌, ◌||◌, ◌+◌, ◌*◌, ◌%◌, ◌≤◌, ◌<◌, ltb, eqb, length, get_or};
ghost use Rattle.store.specs.Store.{round4, part};
ghost use Rattle.transmit_rules.specs.Write.{sized};
ghost use Rattle.transmit_rules.specs.QueueView.{good_words};

use crate::{FIRST, LONGEST};

// Each of the n packets has a good length.
pub fn good_words(dir: &[u16], n: usize) -> bool
    requires { (768 + n ≤ length dir.now) × (n < 65536) }
    ensures { result ≡ good_words (part 768 n dir.now) }
{
    let mut good = true;
    for &w in &dir[FIRST..FIRST + n] {
        good = good & ((6 <= w % 2048) & (w % 2048 <= LONGEST));
    }
    good
}

// The packet being written, of which k words have come, has a good length and is not whole yet.
pub fn good_part(dir: &[u16], n: usize, k: usize) -> bool
    requires { (768 + n < length dir.now) × (n < 65536) × (k ≤ 2048) }
    ensures { result ≡ (eqb k 0 || sized (get_or dir.now (768 + n) 0 % 2048) && ltb (2 * k) (4 + round4 (get_or dir.now (768 + n) 0 % 2048))) }
{
    let w = dir[FIRST + n];
    let len = w % 2048;
    (k == 0) | ((6 <= len) & (len <= LONGEST) & (2 * k < 4 + store::room(w)))
}
