// The contention test: who takes part in a read.
ghost use Rattle.std.specs.Prelude.{◌≡◌};
ghost use Rattle.port_rules.specs.Card.{id_drives};

use port_rules::IdState;

// Whether the card drives a bit when the port is read: in ID_CMD, at its port, untagged.
#[tactic(auto, unfolding(port_rules::specs::Card::id_drives))]
pub fn drives(s: IdState, port: u8) -> bool
    ensures { result ≡ id_drives s port }
{
    s.command & (port == s.port) & (s.tag == 0)
}
