// The EEPROM behind window 0: its commands, at once.
ghost use Rattle.std.specs.Prelude.{◌≡◌, ◌<◌};
ghost use Rattle.card_rules.specs.Eeprom.{leaving as leaving_of, write_all, erase_all, write_word, erase_word, read_word, whole, prom_command};

use card_rules::{Prom, Setup};
use port_rules::IdState;

// Read Register.
fn read_register(i: IdState, n: usize) -> IdState
    requires { n < 64 }
    ensures { result ≡ read_word n i }
{
    IdState {
        shift: i.words[n],
        ..i
    }
}

// Write Register.
fn write_register(mut i: IdState, n: usize) -> IdState
    requires { n < 64 }
    ensures { result ≡ write_word n i }
{
    i.words[n] &= i.shift;
    i
}

// Erase Register.
fn erase_register(mut i: IdState, n: usize) -> IdState
    requires { n < 64 }
    ensures { result ≡ erase_word n i }
{
    i.words[n] = 65535;
    i
}

// Write All Registers.
fn write_all(i: IdState) -> IdState
    ensures { result ≡ write_all i }
{
    let mut words = i.words;
    for w in words.iter_mut() {
        *w &= i.shift;
    }
    IdState { words, ..i }
}

// Erase All Registers.
fn erase_all(i: IdState) -> IdState
    ensures { result ≡ erase_all i }
{
    IdState {
        words: [65535; 64],
        ..i
    }
}

// The state that a command leaves: its byte is kept, and whether erasing and writing is enabled after it.
fn leaving(v: u8, writable: bool, i: IdState) -> Setup
    ensures { result ≡ leaving_of v writable i }
{
    Setup {
        id: i,
        prom: Prom { last: v, writable },
    }
}

// The commands of op code 00.
fn whole_command(v: u8, i: IdState, p: Prom) -> Setup
    ensures { result ≡ whole v i p }
{
    match v % 64 / 16 {
        3 => leaving(v, true, i),
        2 if p.writable => leaving(v, false, erase_all(i)),
        1 if p.writable => leaving(v, false, write_all(i)),
        _ => leaving(v, false, i),
    }
}

// An EEPROM command.
pub fn prom_command(v: u8, i: IdState, p: Prom) -> Setup
    ensures { result ≡ prom_command v i p }
{
    let n = (v % 64) as usize;
    match v / 64 {
        2 => leaving(v, p.writable, read_register(i, n)),
        1 if p.writable => leaving(v, false, write_register(i, n)),
        3 if p.writable => leaving(v, false, erase_register(i, n)),
        1 | 3 => leaving(v, false, i),
        _ => whole_command(v, i, p),
    }
}
