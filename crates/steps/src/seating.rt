// An ID state, as the ID port left it, becomes the card's own.
ghost use Rattle.card_rules.specs.View.{Does};
ghost use Rattle.card_rules.specs.Seat.{seated};

use card_rules::Card;
use port_rules::IdState;

// An ID state is seated; a reset that is due is carried out.
pub fn seat(c: Card, i: IdState) -> Card
    ensures { Does c result (seated i) }
{
    if i.due {
        return Card {
            id: IdState { due: false, ..i },
            ..regs::power_on(i.words, receive::deafen(c.receive.receiver.wire))
        };
    }
    Card { id: i, ..c }
}
