#![tactic(auto)]
// The transmit side of the card: the FIFO and the send outcomes together.
ghost use Rattle.std.specs.Prelude.{◌≡◌, ◌≤◌, ◌<◌, length};
ghost use Rattle.transmit_rules.specs.Queue.{free};
ghost use Rattle.transmit_rules.specs.Leave.{told_of};
ghost use Rattle.transmit_rules.specs.QueueView.{queue_of, Tells};
ghost use Rattle.transmit_rules.specs.Outcome as outcome;
ghost use Rattle.transmit_rules.specs.OutcomesView.{Stacked};
ghost use Rattle.transmit_rules.specs.Tx.{on_reports, write_data, ready, success as success_of, collisions as collisions_of, settle as settle_of};
ghost use Rattle.transmit_rules.specs.View.{tx_of, Sound, Unsettled, Step, Does, Says, sound_side};

use transmit_rules::{Gone, Transmit};

pub mod outcomes; // outcomes.rt: the sender's registers and the TX status stack: what send outcomes report, and the commands that turn the transmitter on and off
mod stack; // stack.rt: what is pushed on the status stack
mod statuses; // statuses.rt: the TX status stack: at most 31 entries, oldest first

pub use outcomes::{has_status, reset, top_status};

// `size` is the transmitter's part of the RAM: the last `size` bytes of `ram`.
// Memory, directory, size and registers stay four parameters, as in `receive` (`reading.rt`).

// The test that a call makes of what it is handed.
pub fn tx_sound(ram: &[u8], dir: &[u16], size: usize, t: Transmit) -> bool
    requires { (size ≤ 4096) × (8192 ≤ length ram.now) × (1110 ≤ length dir.now) }
    ensures { result ≡ sound_side size t ram.now dir.now }
{
    if !queue::fifo_sound(ram, dir, size, t.fifo) {
        return false;
    }
    let free = queue::fifo_free(ram, dir, size, t.fifo);
    let filled = outcomes::outcomes_sound(t.outcomes);
    let settled = outcomes::is_settled(t.outcomes, free);
    filled & settled
}

// TX Free.
pub fn tx_free(ram: &[u8], dir: &[u16], size: usize, t: Transmit) -> usize
    requires { Sound size t ram.now dir.now }
    ensures { result ≡ free size (queue_of size t.fifo ram.now dir.now) }
{
    queue::fifo_free(ram, dir, size, t.fifo)
}

// The host writes a word.
pub fn write_data(ram: &mut [u8], dir: &mut [u16], size: usize, t: Transmit, v: u16) -> Transmit
    requires { Sound size t ram.old dir.old }
    ensures { Step size result ram.old dir.old ram.new dir.new (write_data size v (tx_of size t ram.old dir.old)) }
{
    Transmit {
        fifo: queue::put_word(ram, dir, size, t.fifo, v),
        ..t
    }
}

// A send outcome is possible.
pub fn is_ready(t: Transmit) -> bool
    ensures { Says t result ready }
{
    t.outcomes.sender.on & !t.fifo.failed & (0 < t.fifo.packets)
}

// Success: the oldest packet goes, and the first `n` bytes of `out` are what the wire is told.
pub fn success(ram: &mut [u8], dir: &mut [u16], size: usize, t: Transmit, out: &mut [u8]) -> Gone
    requires { Sound size t ram.old dir.old × (0 < t.fifo.packets) × (1792 ≤ length out.old) }
    ensures step { Step size result.transmit ram.old dir.old ram.new dir.new (success_of (tx_of size t ram.old dir.old)) }
    ensures tells { Tells result.n out.old out.new (told_of (tx_of size t ram.old dir.old).queue.packets) }
{
    let wanted = queue::oldest_wanted(ram, dir, size, t.fifo);
    let n = queue::tell(ram, dir, size, t.fifo, out);
    let fifo = queue::leave_first(ram, dir, size, t.fifo);
    let outcomes = outcomes::success(t.outcomes, wanted);
    Gone {
        transmit: Transmit { fifo, outcomes },
        n,
    }
}

// 16 collisions: the oldest packet goes, and the transmitter is off.
pub fn collisions(ram: &mut [u8], dir: &mut [u16], size: usize, t: Transmit) -> Transmit
    requires { Sound size t ram.old dir.old × (0 < t.fifo.packets) }
    ensures { Step size result ram.old dir.old ram.new dir.new (collisions_of (tx_of size t ram.old dir.old)) }
{
    let wanted = queue::oldest_wanted(ram, dir, size, t.fifo);
    let fifo = queue::leave_first(ram, dir, size, t.fifo);
    let outcomes = outcomes::collisions(t.outcomes, wanted);
    Transmit { fifo, outcomes }
}

// TX Available, at the end of every step.
pub fn settle(ram: &[u8], dir: &[u16], size: usize, t: Transmit) -> Transmit
    requires { Unsettled size t ram.now dir.now }
    ensures { Step size result ram.now dir.now ram.now dir.now (settle_of size (tx_of size t ram.now dir.now)) }
{
    // TX Free is summed only where the answer hangs on it.
    let s = t.outcomes.sender;
    if (1792 < s.level) | s.available {
        return t;
    }
    let free = queue::fifo_free(ram, dir, size, t.fifo);
    Transmit {
        outcomes: outcomes::settle_available(t.outcomes, free),
        ..t
    }
}

// A write to TX Status: the oldest status goes.
pub fn pop_status(t: Transmit) -> Transmit
    requires { Stacked t.outcomes }
    ensures { Does t result (on_reports outcome.pop) }
{
    Transmit {
        outcomes: outcomes::pop_status(t.outcomes),
        ..t
    }
}
