// What each line of a script does to the bench's state.
use crate::driver_lines;
use bench_lines::{host_lines, port_lines, wire_lines};
use bench_rules::{Kind, Line, Reply};
use bench_state::{Bench, lines};
use hex_text::Text;

// One line of a script: what it asks for is done, and its answer takes the place of what stood in the text.
pub fn step(text: &mut Text, b: &mut Bench, line: &[u8]) {
    let mut bytes = [0u8; 4096];
    let asked = script::parse(line, &mut bytes);
    act(text, b, asked, lines::front(&bytes, asked.len));
}

// What a line asks for, by its kind: an arm for each, so that a new kind has no way past it.
fn act(text: &mut Text, b: &mut Bench, asked: Line, bytes: &[u8]) {
    match asked.kind {
        Kind::Nothing => bench_state::plain(text, Reply::Nothing),
        Kind::Unknown => bench_state::plain(text, Reply::What),
        Kind::Power => bench_state::power(text, b, bytes),
        Kind::Join => bench_state::join(text, b, bytes),
        Kind::ReadWord => host_lines::read_word(text, b, asked.a),
        Kind::ReadByte => host_lines::read_byte(text, b, asked.a),
        Kind::WriteWord => host_lines::write_word(text, b, asked.a, asked.b),
        Kind::WriteByte => host_lines::write_byte(text, b, asked.a, asked.b),
        Kind::Start => wire_lines::start(text, b, bytes),
        Kind::Bytes => wire_lines::run(text, b, bytes),
        Kind::End => wire_lines::end(text, b, asked.a, asked.b),
        Kind::Sent => wire_lines::sent(text, b),
        Kind::Collided => wire_lines::collided(text, b),
        Kind::RxStatus => host_lines::rx_status(text, b),
        Kind::IdWrite => port_lines::write(text, b, asked.a, asked.b),
        Kind::IdRead => port_lines::read(text, b, asked.a),
        Kind::Search => port_lines::find(text, b, asked.a),
        Kind::Activate => port_lines::activate(text, b, asked.a, asked.b, asked.c),
        Kind::Open => driver_lines::open(text, b, asked.a, asked.b, asked.c),
        Kind::Send => driver_lines::send(text, b, bytes),
        Kind::Service => driver_lines::service(text, b, asked.a),
    }
}
