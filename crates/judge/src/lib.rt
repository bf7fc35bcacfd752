#![tactic(auto)]
// What the driver goes by: the tests of its own state, of the words that it reads, and of a packet's length and room; and a packet's
// bytes and length as they are written.
ghost use Rattle.std.specs.Prelude.{◌≡◌, ◌≤◌, get_or};
ghost use Rattle.store.specs.Store.{round4};
ghost use Rattle.driver_rules.specs.Driver.{driver_sound};
ghost use Rattle.driver_rules.specs.Packet.{outside, lacks_room};
ghost use Rattle.receive_rules.specs.Count.{decoded as decoded_of};
ghost use Rattle.driver_rules.specs.Registers.{unfit, tx_complete, rx_complete, bad, length_in};

use driver_rules::Driver;

pub mod sizes; // sizes.rt: the paper's numbers: the areas, the lengths of frames and packets, RX Status's count, and the packets unreported

// The driver's part of the test of soundness.
pub fn driver_sound(d: Driver) -> bool
    ensures { result ≡ driver_sound d }
{
    d.unreported <= sizes::MOST_UNREPORTED
}

// Whether a Status word has Adapter Failure or a window other than 1.
pub fn is_unfit(status: u16) -> bool
    ensures { result ≡ unfit status }
{
    (status / 8192 != 1) | bits::has(status, 2)
}

// Whether a Status word has TX Complete: a status waits on the stack.
pub fn is_tx_complete(status: u16) -> bool
    ensures { result ≡ tx_complete status }
{
    bits::has(status, 4)
}

// Whether a Status word has RX Complete: the oldest frame has come to its end.
pub fn is_rx_complete(status: u16) -> bool
    ensures { result ≡ rx_complete status }
{
    bits::has(status, 16)
}

// The unread bytes that RX Status tells.
fn decoded(rx: u16) -> i16
    ensures { result ≡ decoded_of rx }
{
    let told = rx % sizes::COUNT_VALUES;
    if told <= sizes::MOST_UNREAD {
        return told as i16;
    }
    told as i16 - sizes::COUNT_VALUES as i16
}

// RX Status with bit 14 set, or unread bytes outside 60 to 1,514.
pub fn is_bad(rx: u16) -> bool
    ensures { result ≡ bad rx }
{
    bits::has(rx, 16384) | !(sizes::SHORTEST_FRAME..=sizes::LONGEST_FRAME).contains(&decoded(rx))
}

// The unread bytes that RX Status tells, as a length: none below 0.
pub fn length(rx: u16) -> usize
    ensures { result ≡ length_in rx }
{
    decoded(rx).max(0) as usize
}

// Byte i of a packet, 0 past its end.
pub fn byte_of(packet: &[u8], i: usize) -> u8
    ensures { result ≡ get_or packet.now i 0 }
{
    packet.get(i).copied().unwrap_or(0)
}

// A length rounded up to 4.
pub fn round_up(n: usize) -> usize
    requires { n ≤ 1514 }
    ensures { (result ≡ round4 n) × (result ≤ 1516) }
{
    n.next_multiple_of(4)
}

// Whether a packet's length is outside 14 to 1,514.
pub fn is_outside(n: usize) -> bool
    ensures { result ≡ outside n }
{
    !(sizes::SHORTEST_PACKET..=sizes::LONGEST_PACKET).contains(&n)
}

// Whether TX Free is below what a packet of n bytes needs.
pub fn lacks_room(free: u16, n: usize) -> bool
    requires { n ≤ 1514 }
    ensures { result ≡ lacks_room free n }
{
    usize::from(free) < 4 + round_up(n)
}
