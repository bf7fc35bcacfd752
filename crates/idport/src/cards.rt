// Whether the cards on one ID port are sound, and the tests of the calls' arguments.
ghost use Rattle.std.specs.Prelude.{◌≡◌};
ghost use Rattle.port_rules.specs.Gathered.{all_sound, is_port, naming, digit_of};

use crate::id_sound;
use port_rules::IdState;

// Whether each card is sound.
pub fn all_sound(cards: &[IdState]) -> bool
    ensures { result ≡ all_sound cards.now }
{
    cards.iter().all(|card| id_sound(*card))
}

// Whether the port is one of 100h, 110h, .. 1F0h.
pub fn is_port(port: u16) -> bool
    ensures { result ≡ is_port port }
{
    (port % 16 == 0) & (port / 256 == 1)
}

// Whether the tag is 1 to 7 and the base number at most 31.
#[tactic(auto, unfolding(port_rules::specs::Gathered::naming))]
pub fn names(tag: u8, base: u8) -> bool
    ensures { result ≡ naming tag base }
{
    (1..=7).contains(&tag) & (base <= 31)
}

// x of port 1x0h.
pub fn digit(port: u16) -> u8
    ensures { result ≡ digit_of port }
{
    (port / 16 % 16) as u8
}
