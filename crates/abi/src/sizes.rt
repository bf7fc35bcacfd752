// The archive's own sizes, in bytes: what a caller's declarations must come to.
ghost use Rattle.std.specs.Prelude.{◌≡◌};
ghost use Rattle.abi.specs.Sizes as says;

use card_rules::Card;
use driver_rules::Driver;
use port_rules::Bus;
use std::mem::size_of;

#[unsafe(no_mangle)]
pub extern "C" fn seamtrout_card_size() -> usize
    ensures { result ≡ says.card }
{
    size_of::<Card>()
}

#[unsafe(no_mangle)]
pub extern "C" fn seamtrout_driver_size() -> usize
    ensures { result ≡ says.driver }
{
    size_of::<Driver>()
}

#[unsafe(no_mangle)]
pub extern "C" fn seamtrout_bus_size() -> usize
    ensures { result ≡ says.bus }
{
    size_of::<Bus>()
}
