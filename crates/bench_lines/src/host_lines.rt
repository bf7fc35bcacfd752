// The host's accesses, and RX Status without one.
use bench_rules::Reply;
use bench_state::{Bench, done, plain, told};
use hex_text::Text;

pub fn read_word(text: &mut Text, b: &mut Bench, o: u16) {
    let got = card::read_word(&b.ram, &b.dir, b.card, o);
    b.card = got.card;
    plain(text, told(got.answer, |v| Reply::Word(v)));
}

pub fn read_byte(text: &mut Text, b: &mut Bench, o: u16) {
    let got = card::read_byte(&b.ram, &b.dir, b.card, o);
    b.card = got.card;
    plain(text, told(got.answer, |v| Reply::Byte(v)));
}

pub fn write_word(text: &mut Text, b: &mut Bench, o: u16, v: u16) {
    let got = card::write_word(&mut b.ram, &mut b.dir, b.card, o, v);
    b.card = got.card;
    done(text, got.answer);
}

pub fn write_byte(text: &mut Text, b: &mut Bench, o: u16, v: u16) {
    let got = card::write_byte(&mut b.ram, &mut b.dir, b.card, o, (v % 256) as u8);
    b.card = got.card;
    done(text, got.answer);
}

// RX Status and the unread bytes: the card stays as it is.
pub fn rx_status(text: &mut Text, b: &Bench) {
    let answer = card::rx_status(&b.ram, &b.dir, b.card);
    plain(text, told(answer, |s| Reply::RxStatus(s.word, s.unread)));
}
