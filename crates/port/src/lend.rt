// A call over the cards of a bus that are there: they are lent as a slice, and what the call leaves is joined to the places past them.
ghost use Rattle.std.specs.Prelude.{◌≡◌, cond};
ghost use Rattle.std.specs.Fn.{FnOnceReturnsAtMut};
ghost use Rattle.refusal.specs.Number.{number_of};
ghost use Rattle.port_rules.specs.Port.{held};
ghost use Rattle.port_rules.specs.Calls.{all_sound};
ghost use Rattle.port.specs.Lent.{Called};

use port_rules::{Bus, IdState};
use refusal::Refusal;

// Why a bus that counts more cards than its eight places is refused: one of the eight is unsound, else the count is outside.
fn too_many(b: Bus) -> Refusal
    ensures { number_of result ≡ cond (all_sound (held b)) 12 1 }
{
    let cards = b.cards;
    if idport::all_sound(&cards[..b.count.min(8)]) {
        return Refusal::ArgumentOutside;
    }
    Refusal::StateUnsound
}

// The bus as the call leaves it, and its answer; a bus that counts more cards than its eight places is refused.
pub fn call<A, F: FnOnce(&mut [IdState]) -> A, R: FnOnce(Refusal) -> A>(
    b: Bus,
    call: F,
    refuse: R,
) -> (Bus, A)
    requires calls { F.IsAlwaysCallable call }
    requires refuses { R.IsAlwaysCallable refuse }
    ensures { Called (FnOnceReturnsAtMut F.FnOnce call) (R.post refuse) b result.0 result.1 }
{
    let n = b.count;
    if n > 8 {
        return (b, refuse(too_many(b)));
    }
    let mut cards = b.cards;
    let answer = call(&mut cards[..n]);
    (Bus { cards, count: n }, answer)
}
