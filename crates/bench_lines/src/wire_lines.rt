// What the wire does: a frame that comes, and the outcome of a packet that goes.
use bench_rules::Reply;
use bench_state::{Bench, done, lines, plain, refused, told};
use hex_text::Text;

pub fn start(text: &mut Text, b: &mut Bench, bytes: &[u8]) {
    let mut first = [0u8; 8];
    for i in 0..8 {
        first[i] = lines::byte_at(bytes, i);
    }
    let got = card::wire_start(&mut b.ram, &mut b.dir, b.card, first);
    b.card = got.card;
    done(text, got.answer);
}

// Each byte is a step. The first that is refused ends it: it is the first of all, since a byte that is taken leaves the frame on the wire.
pub fn run(text: &mut Text, b: &mut Bench, bytes: &[u8]) {
    if bytes.len() > 4096 {
        plain(text, Reply::What);
        return;
    }
    let mut at = b.card;
    for byte in bytes {
        let got = card::wire_byte(&mut b.ram, &mut b.dir, at, *byte);
        at = got.card;
        if let Err(why) = got.answer {
            b.card = at;
            plain(text, refused(why));
            return;
        }
    }
    b.card = at;
    plain(text, Reply::Ok);
}

pub fn end(text: &mut Text, b: &mut Bench, check: u16, alignment: u16) {
    let got = card::wire_end(&mut b.ram, &mut b.dir, b.card, check == 1, alignment == 1);
    b.card = got.card;
    done(text, got.answer);
}

// A success: the wire is told the packet's bytes.
pub fn sent(text: &mut Text, b: &mut Bench) {
    let mut out = [0u8; 1792];
    let got = card::success(&mut b.ram, &mut b.dir, b.card, &mut out);
    b.card = got.card;
    let n = got.answer.unwrap_or(0);
    answers::say(
        text,
        told(got.answer, |_| Reply::Wire),
        lines::front(&out, n),
        [0; 7],
    );
}

pub fn collided(text: &mut Text, b: &mut Bench) {
    let got = card::collisions(&mut b.ram, &mut b.dir, b.card);
    b.card = got.card;
    done(text, got.answer);
}
