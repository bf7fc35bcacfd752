// One card's steps at the ID port.
ghost use Rattle.std.specs.Prelude.{◌≡◌};
ghost use Rattle.port_rules.specs.Card.{id_write, id_bit, id_after_read};
ghost use Rattle.port_rules.specs.Gathered.{digit_of};

use crate::cards::digit;
use port_rules::IdState;

// A byte is written to the port.
pub fn written(i: IdState, port: u16, byte: u8) -> IdState
    ensures { result ≡ id_write i (digit_of port) byte }
{
    crate::id_write(i, digit(port), byte)
}

// The bit that the card drives when the port is read; 1 if it drives none.
pub fn bit(i: IdState, port: u16) -> u8
    ensures { result ≡ id_bit i (digit_of port) }
{
    crate::id_bit(i, digit(port))
}

// The port was read, and the bus carried `bus`.
pub fn heard(i: IdState, port: u16, bus: u8) -> IdState
    ensures { result ≡ id_after_read i (digit_of port) bus }
{
    crate::id_after_read(i, digit(port), bus)
}
