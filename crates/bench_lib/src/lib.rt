#![tactic(auto)]
// Plays a script: input is read in pieces, and each line is answered as soon as it is whole.
use bench_state::Bench;
use bench_state::lines::Gathered;
use hex_text::Text;
use std::io::Read;

mod driver_lines; // driver_lines.rt: the driver's calls
mod session; // session.rt: one line of a script

// The state between two pieces: the bench, and an unfinished line.
#[derive(Clone, Copy)]
pub struct Playing {
    pub bench: Bench,
    pub line: Gathered,
}

// A whole line is answered, and the next begins.
fn answer(rt: &HostRuntime, text: &mut Text, p: &mut Playing) {
    let _ = match p.line.whole() {
        Some(line) => {
            session::step(text, &mut p.bench, line);
            rt.write_all(text.chars())
        }
        None => rt.write_all(b"what?\n"),
    };
    p.line.clear();
}

// A piece of input: every line that it makes whole is answered.
fn feed(rt: &HostRuntime, text: &mut Text, p: &mut Playing, piece: &[u8]) {
    let mut rest = piece;
    while let Some(end) = rest.iter().position(|b| *b == b'\n') {
        p.line.push(&rest[..end]);
        answer(rt, text, p);
        rest = &rest[end + 1..];
    }
    p.line.push(rest);
}

// Reads a piece and plays it, and answers whether there may be more to read.
fn turn<R: Read>(rt: &HostRuntime, from: &mut R, text: &mut Text, p: &mut Playing) -> bool {
    let mut piece = [0u8; 4096];
    match from.read(&mut piece) {
        Ok(n) if 0 < n => {
            feed(rt, text, p, &piece[..n]);
            true
        }
        _ => false,
    }
}

// Plays the script that a reader gives, from a power-on card of zero words on. A proved loop has to end, and nothing says that input does: so it counts its turns, up to a number that no run comes to.
pub fn play<R: Read>(rt: &HostRuntime, from: &mut R) {
    let mut text = Text::new();
    let mut p = Playing {
        bench: Bench::new([0; 64]),
        line: Gathered::new(),
    };
    for _ in 0..u64::MAX {
        if !turn(rt, from, &mut text, &mut p) {
            break;
        }
    }
    // A last line without a newline counts.
    if !p.line.is_empty() {
        answer(rt, &mut text, &mut p);
    }
}
