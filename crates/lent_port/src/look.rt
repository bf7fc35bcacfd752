// A write, a read or an activation over the slice: the tests, what the bus carries, and the step of each card.
ghost use Rattle.std.specs.Prelude.{◌≡◌, ◌+◌, ◌<◌};
ghost use Rattle.port_rules.specs.Gathered.{port_bit};
ghost use Rattle.lent_port.specs.Roll.{activated_by};
ghost use Rattle.lent_port.specs.Steps.{tested as tested_of, Each};

use crate::card::call_up;
use idport::{all_sound, id_bit, id_write, is_port};
use port_rules::IdState;
use refusal::Refusal;

// The tests of every call: refusal 1 for an unsound state, then 12 for a port that is none of 100h, 110h, .. 1F0h or for more than eight cards.
#[tactic(auto, unfolding(crate::specs::Steps::tested, port_rules::specs::Calls::allowed))]
pub fn tested(cards: &[IdState], port: u16) -> Result<(), Refusal>
    ensures { result ≡ tested_of cards.now port }
{
    if !all_sound(cards) {
        return Err(Refusal::StateUnsound);
    }
    if is_port(port) & (cards.len() <= 8) {
        return Ok(());
    }
    Err(Refusal::ArgumentOutside)
}

// Each card is stepped where it stands.
pub fn each<F: Fn(IdState) -> IdState>(cards: &mut [IdState], step: F)
    requires { F.IsAlwaysCallable step }
    ensures { Each (F.post step) cards.old cards.new }
{
    for card in cards.iter_mut() {
        *card = step(*card);
    }
}

// What the bus carries at a read of the port.
pub fn carried(cards: &[IdState], x: u8) -> u8
    ensures { result ≡ port_bit x cards.now }
{
    cards.iter().fold(1, |bit, card| bit.min(id_bit(*card, x)))
}

// One card after an activation: two zeros, sequence, D8h plus tag, E0h plus base number.
pub fn activated(card: IdState, x: u8, tag: u8, base: u8) -> IdState
    requires { (tag < 8) × (base < 32) }
    ensures { result ≡ activated_by x (0xD8 + tag) (0xE0 + base) card }
{
    let called = call_up(card, x);
    let tested = id_write(called, x, 0xD8 + tag);
    id_write(tested, x, 0xE0 + base)
}
