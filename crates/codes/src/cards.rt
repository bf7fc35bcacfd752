// The card's answers in numbers.
ghost use Rattle.std.specs.Prelude.{◌≡◌};
ghost use Rattle.codes.specs.Codes.{coded_done, coded_read, coded_told, coded_line, coded_rx_status};

use crate::code;
use card_rules::{After, Card, RxStatus};
use refusal::Refusal;

// The card after a call, and the code.
#[repr(C)]
#[derive(Clone, Copy)]
pub struct CardDone {
    pub card: Card,
    pub code: u8,
}

// The card after a read, the value and the code.
#[repr(C)]
#[derive(Clone, Copy)]
pub struct CardRead {
    pub card: Card,
    pub value: u16,
    pub code: u8,
}

// The card after a success, how many bytes the wire was told, and the code.
#[repr(C)]
#[derive(Clone, Copy)]
pub struct CardTold {
    pub card: Card,
    pub n: usize,
    pub code: u8,
}

// The interrupt line that the card drives, 0 for none, and the code.
#[repr(C)]
#[derive(Clone, Copy)]
pub struct CardLine {
    pub line: u16,
    pub code: u8,
}

// RX Status, the unread bytes and the code.
#[repr(C)]
#[derive(Clone, Copy)]
pub struct CardRxStatus {
    pub word: u16,
    pub unread: i16,
    pub code: u8,
}

pub fn coded_done(x: After<()>) -> CardDone
    ensures { result ≡ coded_done x }
{
    CardDone {
        card: x.card,
        code: code(&x.answer),
    }
}

pub fn coded_read(x: After<u16>) -> CardRead
    ensures { result ≡ coded_read x }
{
    CardRead {
        card: x.card,
        value: x.answer.unwrap_or(0),
        code: code(&x.answer),
    }
}

pub fn coded_told(x: After<usize>) -> CardTold
    ensures { result ≡ coded_told x }
{
    CardTold {
        card: x.card,
        n: x.answer.unwrap_or(0),
        code: code(&x.answer),
    }
}

pub fn coded_line(x: Result<u16, Refusal>) -> CardLine
    ensures { result ≡ coded_line x }
{
    CardLine {
        line: x.unwrap_or(0),
        code: code(&x),
    }
}

pub fn coded_rx_status(x: Result<RxStatus, Refusal>) -> CardRxStatus
    ensures { result ≡ coded_rx_status x }
{
    let told = x.unwrap_or(RxStatus { word: 0, unread: 0 });
    CardRxStatus {
        word: told.word,
        unread: told.unread,
        code: code(&x),
    }
}
