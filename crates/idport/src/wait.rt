// ID_WAIT: the card watches the writes to every port 1x0h.
ghost use Rattle.std.specs.Prelude.{◌≡◌};
ghost use Rattle.port_rules.specs.Card.{expected, id_wait};

use crate::sequence;
use port_rules::IdState;

// Whether `byte` is the one that stands at place `at` of the sequence.
#[tactic(auto, unfolding(port_rules::specs::Card::expected))]
fn is_expected(at: u8, byte: u8) -> bool
    ensures { result ≡ expected at byte }
{
    (at < 255) && (byte == sequence::byte_at(usize::from(at)))
}

// A byte written in ID_WAIT: a zero chooses the port; at that port the card follows the sequence, and its last byte leads to ID_CMD.
#[tactic(auto, unfolding(port_rules::specs::Card::id_wait))]
pub fn listen(s: IdState, port: u8, byte: u8) -> IdState
    ensures { result ≡ id_wait s port byte }
{
    if byte == 0 {
        return IdState { port, at: 0, ..s };
    }
    if port != s.port {
        return s;
    }
    if !is_expected(s.at, byte) {
        return IdState { at: 0, ..s };
    }
    if s.at == 254 {
        return IdState {
            command: true,
            at: 0,
            ..s
        };
    }
    IdState { at: s.at + 1, ..s }
}
