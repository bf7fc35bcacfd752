// The driver's answers in numbers.
ghost use Rattle.std.specs.Prelude.{◌≡◌};
ghost use Rattle.codes.specs.Codes.{coded_opened, coded_sent, service_told, coded_served, coded_part};

use crate::code;
use card_rules::Card;
use driver_rules::{After, Driver, Item, Serviced};
use refusal::Refusal;

// Card and driver after an open, and the code.
#[repr(C)]
#[derive(Clone, Copy)]
pub struct DriverDone {
    pub card: Card,
    pub driver: Driver,
    pub code: u8,
}

// Card and driver after a send, the ticket and the code.
#[repr(C)]
#[derive(Clone, Copy)]
pub struct DriverSent {
    pub card: Card,
    pub driver: Driver,
    pub ticket: u16,
    pub code: u8,
}

// What a service answers. `kind`: 0 refused, 1 a report (ticket and status), 2 a status alone, 3 a frame of n bytes, 4 idle.
#[repr(C)]
#[derive(Clone, Copy)]
pub struct Service {
    pub kind: u8,
    pub code: u8,
    pub ticket: u16,
    pub status: u16,
    pub n: usize,
}

// Card and driver after a service, the answer and the accesses used.
#[repr(C)]
#[derive(Clone, Copy)]
pub struct DriverServed {
    pub card: Card,
    pub driver: Driver,
    pub answer: Service,
    pub accesses: usize,
}

// Where the part that is handed up lies: the area that it is the front of, 1 the lookahead area and 2 the frame area, and its length.
#[repr(C)]
#[derive(Clone, Copy)]
pub struct HandedUp {
    pub area: u8,
    pub n: usize,
}

pub fn coded_opened(x: After<()>) -> DriverDone
    ensures { result ≡ coded_opened x }
{
    DriverDone {
        card: x.card,
        driver: x.driver,
        code: code(&x.answer),
    }
}

pub fn coded_sent(x: After<u16>) -> DriverSent
    ensures { result ≡ coded_sent x }
{
    DriverSent {
        card: x.card,
        driver: x.driver,
        ticket: x.answer.unwrap_or(0),
        code: code(&x.answer),
    }
}

// A refusal tells its code and nothing else.
fn service_told(a: Result<Item, Refusal>) -> Service
    ensures { result ≡ service_told a }
{
    let none = Service {
        kind: 0,
        code: code(&a),
        ticket: 0,
        status: 0,
        n: 0,
    };
    match a {
        Ok(Item::Reported(ticket, status)) => Service {
            kind: 1,
            ticket,
            status,
            ..none
        },
        Ok(Item::Status(status)) => Service {
            kind: 2,
            status,
            ..none
        },
        Ok(Item::Frame(n)) => Service { kind: 3, n, ..none },
        Ok(Item::Idle) => Service { kind: 4, ..none },
        Err(_) => none,
    }
}

pub fn coded_served(x: Serviced) -> DriverServed
    ensures { result ≡ coded_served x }
{
    DriverServed {
        card: x.card,
        driver: x.driver,
        answer: service_told(x.answer),
        accesses: x.used,
    }
}

// The part of `len` bytes that a frame of n bytes is handed up in.
pub fn coded_part(n: usize, len: usize) -> HandedUp
    ensures { result ≡ coded_part n len }
{
    let area = if n <= judge::sizes::LOOKAHEAD_AREA {
        1
    } else {
        2
    };
    HandedUp { area, n: len }
}
