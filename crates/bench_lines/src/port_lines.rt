// The ID port. The bench's own card stands first on it, the joined ones behind it.
use bench_rules::Reply;
use bench_state::{Bench, plain, refused, told};
use hex_text::Text;
use port_rules::{After, Bus, IdState};

// A card in front of the joined ones.
fn in_front(own: IdState, mut joined: [IdState; 8]) -> [IdState; 8] {
    joined.copy_within(0..7, 1);
    joined[0] = own;
    joined
}

// All cards on the port.
fn bus(b: &Bench) -> Bus {
    Bus {
        cards: in_front(b.card.id, b.joined),
        count: b.others % 8 + 1,
    }
}

// A joined card carries out a reset that is due: it is a card at power-on with its words.
fn settled(s: IdState) -> IdState {
    if s.due { idport::fresh(s.words) } else { s }
}

// The joined cards, from the second place of the port on.
fn rejoined(mut cards: [IdState; 8]) -> [IdState; 8] {
    cards.copy_within(1..8, 0);
    for card in cards.iter_mut() {
        *card = settled(*card);
    }
    cards
}

// The cards as the port left them, back in their places: the first is seated in the card, which carries out a reset that is due, as do the others.
fn back(b: &mut Bench, after: Bus) {
    let got = card::seat(&b.ram, &b.dir, b.card, after.cards[0]);
    b.card = got.card;
    b.joined = rejoined(after.cards);
}

// The reply to a call of the port; a refused one changes no card.
fn carried<T: Copy, F: FnOnce(T) -> Reply>(
    text: &mut Text,
    b: &mut Bench,
    after: After<T>,
    tells: F,
)
    requires { F.IsAlwaysCallable tells }
{
    if after.answer.is_ok() {
        back(b, after.bus);
    }
    plain(text, told(after.answer, tells));
}

pub fn write(text: &mut Text, b: &mut Bench, port: u16, byte: u16) {
    let after = port::port_write(bus(b), port, (byte % 256) as u8);
    carried(text, b, after, |_| Reply::Ok);
}

pub fn read(text: &mut Text, b: &mut Bench, port: u16) {
    let after = port::port_read(bus(b), port);
    carried(text, b, after, |bit| Reply::Bit(bit));
}

pub fn find(text: &mut Text, b: &mut Bench, port: u16) {
    let after = port::find_cards(bus(b), port);
    match after.answer {
        Ok(cards) => {
            back(b, after.bus);
            answers::say(
                text,
                Reply::Found(cards.count, cards.accesses),
                &[],
                after.addresses,
            );
        }
        Err(why) => plain(text, refused(why)),
    }
}

// A number that no byte holds is no tag and no base number: 255, which is none either, stands for it.
fn narrowed(v: u16) -> u8 {
    u8::try_from(v).unwrap_or(255)
}

pub fn activate(text: &mut Text, b: &mut Bench, port: u16, tag: u16, base: u16) {
    let after = port::activate_card(bus(b), port, narrowed(tag), narrowed(base));
    carried(text, b, after, |_| Reply::Ok);
}
