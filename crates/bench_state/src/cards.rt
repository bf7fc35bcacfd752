// Cards: a new one, and another on the ID port.
use crate::{Bench, lines};
use bench_rules::Reply;
use hex_text::Text;
use refusal::Refusal;

// 64 words, the high byte first.
fn words_of(bytes: &[u8]) -> [u16; 64] {
    let mut words = [0u16; 64];
    for i in 0..64 {
        words[i] = bits::pair(
            lines::byte_at(bytes, 2 * i),
            lines::byte_at(bytes, 2 * i + 1),
        );
    }
    words
}

// A new card, an unopened driver, no other cards.
pub fn power(text: &mut Text, b: &mut Bench, bytes: &[u8]) {
    b.restart(words_of(bytes));
    crate::plain(text, Reply::Ok);
}

// Another card on the ID port; eight in all are there.
pub fn join(text: &mut Text, b: &mut Bench, bytes: &[u8]) {
    let at = b.others;
    if at >= 7 {
        crate::plain(text, crate::refused(Refusal::ArgumentOutside));
        return;
    }
    b.joined[at] = idport::fresh(words_of(bytes));
    b.others = at + 1;
    crate::plain(text, Reply::Ok);
}
