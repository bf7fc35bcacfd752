// The driver's calls.
ghost use Rattle.abi.specs.Drivers as says;

use card_rules::Card;
use codes::{DriverDone, DriverSent, DriverServed, HandedUp};
use driver_rules::Driver;

// Open, with the address as words 00h-02h.
#[unsafe(no_mangle)]
pub extern "C" fn seamtrout_driver_open(
    ram: &mut [u8; 8192],
    dir: &mut [u16; 1110],
    c: Card,
    d: Driver,
    w0: u16,
    w1: u16,
    w2: u16,
) -> DriverDone
    ensures { says.Opens c ram.old dir.old d w0 w1 w2 result ram.new dir.new }
{
    codes::coded_opened(driver::open(ram, dir, c, d, w0, w1, w2))
}

// Send a packet, without its check bytes.
#[unsafe(no_mangle)]
pub extern "C" fn seamtrout_driver_send(
    ram: &mut [u8; 8192],
    dir: &mut [u16; 1110],
    c: Card,
    d: Driver,
    packet: &[u8],
) -> DriverSent
    ensures { says.Sends c ram.old dir.old d packet.now result ram.new dir.new }
{
    codes::coded_sent(driver::send(ram, dir, c, d, packet))
}

// Service, with at most `budget` accesses. A frame of up to 256 bytes lands in `ahead`, a longer one in `frame`.
#[unsafe(no_mangle)]
pub extern "C" fn seamtrout_driver_service(
    ram: &mut [u8; 8192],
    dir: &mut [u16; 1110],
    c: Card,
    d: Driver,
    budget: u16,
    ahead: &mut [u8],
    frame: &mut [u8],
) -> DriverServed
    ensures { says.Services c ram.old dir.old d budget ahead.old frame.old result ram.new dir.new ahead.new frame.new }
{
    codes::coded_served(driver::service(ram, dir, c, d, budget, ahead, frame))
}

// The part of the areas that a frame of n bytes was handed up in; empty if its area does not hold n bytes.
// An exported function cannot return a reference, so it tells where the part lies.
#[unsafe(no_mangle)]
pub extern "C" fn seamtrout_driver_hand_up<'a>(
    ahead: &'a [u8],
    frame: &'a [u8],
    n: usize,
) -> HandedUp
    ensures { says.HandsUp ahead.entry frame.entry n result }
{
    let part = driver::hand_up(ahead, frame, n);
    codes::coded_part(n, part.len())
}
