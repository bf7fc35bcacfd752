// The driver's calls.
use bench_rules::Reply;
use bench_state::{Bench, done, plain, refused, told};
use driver_rules::Item;
use hex_text::Text;
use refusal::Refusal;

pub fn open(text: &mut Text, b: &mut Bench, w0: u16, w1: u16, w2: u16) {
    let got = driver::open(&mut b.ram, &mut b.dir, b.card, b.driver, w0, w1, w2);
    b.card = got.card;
    b.driver = got.driver;
    done(text, got.answer);
}

pub fn send(text: &mut Text, b: &mut Bench, packet: &[u8]) {
    let got = driver::send(&mut b.ram, &mut b.dir, b.card, b.driver, packet);
    b.card = got.card;
    b.driver = got.driver;
    plain(text, told(got.answer, |ticket| Reply::Ticket(ticket)));
}

// What a service answers; short of budget it tells the accesses used.
fn service_reply(answer: Result<Item, Refusal>, used: usize) -> Reply {
    match answer {
        Ok(Item::Reported(ticket, s)) => Reply::Report(ticket, s, used),
        Ok(Item::Status(s)) => Reply::Status(s, used),
        Ok(Item::Frame(n)) if n <= 256 => Reply::Look(used),
        Ok(Item::Frame(_)) => Reply::Frame(used),
        Ok(Item::Idle) => Reply::Idle(used),
        Err(Refusal::BudgetShort) => Reply::Short(used),
        Err(why) => refused(why),
    }
}

// The bytes of a frame handed up: none for another answer.
fn frame_bytes(answer: Result<Item, Refusal>) -> usize {
    match answer {
        Ok(Item::Frame(n)) => n,
        _ => 0,
    }
}

pub fn service(text: &mut Text, b: &mut Bench, budget: u16) {
    let mut ahead = [0u8; 256];
    let mut frame = [0u8; 1514];
    let got = driver::service(
        &mut b.ram, &mut b.dir, b.card, b.driver, budget, &mut ahead, &mut frame,
    );
    b.card = got.card;
    b.driver = got.driver;
    let up = driver::hand_up(&ahead, &frame, frame_bytes(got.answer));
    answers::say(text, service_reply(got.answer, got.used), up, [0; 7]);
}
