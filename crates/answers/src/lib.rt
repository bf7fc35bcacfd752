#![tactic(auto)]
// The answers of the bench: one line each. The definition is `bench_rules/specs/Answers.antt`.
ghost use Rattle.std.specs.Prelude.{◌≡◌};
ghost use Rattle.bench_rules.specs.Answers.{line_of};

use bench_rules::Reply;
use hex_text::Text;

mod forms;

// The line of an answer, with the bytes and the addresses that stand beside it, in the place of what stood in the text.
#[tactic(auto, unfolding(bench_rules::specs::Answers::line_of))]
pub fn say(text: &mut Text, reply: Reply, bytes: &[u8], addresses: [u64; 7])
    ensures { text.new ≡ line_of reply bytes.now addresses }
{
    match reply {
        Reply::Nothing => text.clear(),
        Reply::What => forms::fixed(text, b"what?\n"),
        Reply::Ok => forms::fixed(text, b"ok\n"),
        Reply::Refused(n) => forms::numbered(text, b"refused ", u32::from(n)),
        Reply::Word(v) => forms::word(text, v),
        Reply::Byte(v) => forms::byte(text, v),
        Reply::RxStatus(v, n) => forms::rx_status(text, v, n),
        Reply::Bit(b) => forms::numbered(text, b"= ", u32::from(b)),
        Reply::Wire => forms::wire(text, forms::part(bytes)),
        Reply::Found(m, used) => forms::found(text, m, used, addresses),
        Reply::Ticket(n) => forms::numbered(text, b"ticket ", u32::from(n)),
        Reply::Report(ticket, s, used) => forms::report(text, ticket, s, used),
        Reply::Status(s, used) => forms::status(text, s, used),
        Reply::Look(used) => forms::frame(text, b"frame look ", forms::part(bytes), used),
        Reply::Frame(used) => forms::frame(text, b"frame frame ", forms::part(bytes), used),
        Reply::Idle(used) => forms::numbered(text, b"idle accesses ", (used % 100000) as u32),
        Reply::Short(used) => forms::numbered(text, b"refused 6 accesses ", (used % 100000) as u32),
    }
}
