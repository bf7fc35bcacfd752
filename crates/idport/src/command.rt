// ID_CMD: the commands 00 to FF, in the manual's order.
ghost use Rattle.std.specs.Prelude.{◌≡◌, cond, ◌-◌, ◌≤◌, eqb};
ghost use Rattle.port_rules.specs.Card.{waiting as waiting_of, activated, based, id_command};

use port_rules::IdState;

// To ID_WAIT, which forgets the port.
pub fn waiting(s: IdState) -> IdState
    ensures { result ≡ waiting_of s }
{
    IdState {
        command: false,
        port: 16,
        at: 0,
        ..s
    }
}

// E0 to FE activate at that base, FF at the preconfigured one; then to ID_WAIT.
fn activate(s: IdState, byte: u8) -> IdState
    requires { 0xE0 ≤ byte }
    ensures { result ≡ cond (eqb byte 0xFF) (activated s.address (waiting_of s)) (activated (based s.address (byte - 0xE0)) (waiting_of s)) }
{
    let next = waiting(s);
    let address = if byte == 0xFF {
        s.address
    } else {
        s.address / 32 * 32 + u16::from(byte - 0xE0)
    };
    IdState {
        address,
        active: true,
        ..next
    }
}

// A byte written to the card's port in ID_CMD.
#[tactic(auto, unfolding(port_rules::specs::Card::id_command))]
pub fn obey(s: IdState, byte: u8) -> IdState
    ensures { result ≡ id_command s byte }
{
    match byte {
        0x00..=0x7F => waiting(s),
        0x80..=0xBF => IdState {
            shift: s.words[usize::from(byte - 0x80)],
            ..s
        },
        0xC0..=0xCF => IdState {
            due: true,
            ..crate::fresh(s.words)
        },
        0xD0 => IdState { tag: 0, ..s },
        0xD1..=0xD7 if s.tag == 0 => IdState {
            tag: byte - 0xD0,
            ..s
        },
        0xD1..=0xD7 => s,
        0xD8..=0xDF if byte - 0xD8 == s.tag => s,
        0xD8..=0xDF => waiting(s),
        0xE0..=0xFF => activate(s, byte),
    }
}
