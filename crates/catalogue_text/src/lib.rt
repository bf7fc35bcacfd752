#![tactic(auto)]
// What the program says, answers on standard output and messages on standard error, and the words that it reads. Proved safe and
// ending; what is written is tested.
use catalogue_rules::{ADDRESS, Counts, NUMBER};
use std::io;

// Answers whether it was written.
pub fn tell(rt: &HostRuntime, text: &[u8]) -> io::Result<()> {
    rt.write_all(text)
}

pub fn warn(rt: &HostRuntime, text: &[u8]) {
    let _ = rt.stderr().write_all(text);
}

// Says so where standard output did not take all.
pub fn told(rt: &HostRuntime, whole: io::Result<()>) {
    if let Err(why) = whole {
        host::fail(rt, b"standard output", why);
    }
}

pub fn usage(rt: &HostRuntime) {
    warn(rt, b"usage: catalogue list FILE\n");
    warn(rt, b"       catalogue check FILE\n");
    warn(rt, b"       catalogue show FILE ADDRESS [VERSION]\n");
    warn(rt, b"       catalogue diff FILE ADDRESS VERSION VERSION\n");
    warn(rt, b"       catalogue lookup OVERRIDE FILE ADDRESS\n");
    warn(rt, b"       catalogue add FILE IMAGE\n");
    warn(rt, b"       catalogue drop FILE ADDRESS\n");
    warn(rt, b"       catalogue import ARCHIVE FILE [--replace]\n");
    warn(rt, b"       catalogue export FILE ARCHIVE [--replace]\n");
    warn(
        rt,
        b"ADDRESS has twelve hexadecimal digits; VERSION is a number from 0 to 65535.\n",
    );
    warn(
        rt,
        b"- stands for standard input or output; a file of that name is ./-.\n",
    );
    warn(
        rt,
        b"--replace writes over what stands there; a file of that name is ./--replace.\n",
    );
}

// Whether a file's name means standard input or output.
pub fn is_dash(path: &[u8]) -> bool {
    path == b"-".as_slice()
}

// The name of a file that is read.
pub fn source(path: &[u8]) -> &[u8] {
    if is_dash(path) {
        return b"standard input";
    }
    path
}

// What is wrong with a file, behind its name.
fn of_file(rt: &HostRuntime, path: &[u8], what: &[u8]) {
    warn(rt, path);
    warn(rt, what);
}

pub fn larger(rt: &HostRuntime, path: &[u8], room: usize) {
    of_file(rt, source(path), b": larger than ");
    let _ = eprint!(rt; "{room}");
    warn(rt, b" bytes\n");
}

pub fn too_long(rt: &HostRuntime, path: &[u8]) {
    of_file(rt, path, b": the name is too long\n");
}

pub fn link(rt: &HostRuntime, path: &[u8]) {
    of_file(
        rt,
        path,
        b": a symbolic link; name the file that it leads to\n",
    );
}

pub fn stands(rt: &HostRuntime, path: &[u8]) {
    of_file(rt, path, b": stands already; --replace writes over it\n");
}

pub fn catalogue_stands(rt: &HostRuntime, path: &[u8]) {
    of_file(
        rt,
        path,
        b": a catalogue stands there; --replace writes over it\n",
    );
}

pub fn locked(rt: &HostRuntime, path: &[u8]) {
    of_file(
        rt,
        path,
        b".lock: stands already; another program is changing ",
    );
    of_file(rt, path, b" (if none is, remove it)\n");
}

// What became of pieces that were each written by itself: the last failure, where one failed.
fn joined(pieces: &[io::Result<()>]) -> io::Result<()> {
    pieces.iter().fold(Ok(()), |whole, piece| piece.and(whole))
}

pub fn sound(rt: &HostRuntime, counts: Counts) {
    let Counts { cards, fields } = counts;
    let pieces = [
        print!(rt; "sound: "),
        print!(rt; "{cards}"),
        print!(rt; " cards, "),
        print!(rt; "{fields}"),
        println!(rt; " fields"),
    ];
    told(rt, joined(&pieces));
}

// The version that a card got.
pub fn added(rt: &HostRuntime, number: u16, address: u64) {
    let pieces = [
        print!(rt; "version "),
        print!(rt; "{number}"),
        print!(rt; " of "),
        print!(rt; "{address:012X}"),
        println!(rt),
    ];
    told(rt, joined(&pieces));
}

// A word of an image that another image has otherwise.
pub fn changed(rt: &HostRuntime, word: usize, old: u16, new: u16) -> io::Result<()> {
    joined(&[
        print!(rt; "word "),
        print!(rt; "{word:02X}"),
        print!(rt; ": "),
        print!(rt; "{old:04X}"),
        print!(rt; " -> "),
        print!(rt; "{new:04X}"),
        println!(rt),
    ])
}

// A card to a line: its address, and the numbers of its versions.
pub fn cards(rt: &HostRuntime, file: &[u8]) {
    told(rt, card_lines(rt, file));
}

fn card_lines(rt: &HostRuntime, file: &[u8]) -> io::Result<()> {
    let mut at = 0;
    let mut some = false;
    let mut whole = Ok(());
    while let Some(field) = catalogue_read::field_at(file, at) {
        match field.tag {
            ADDRESS => {
                if some {
                    whole = println!(rt).and(whole);
                }
                let address = catalogue_read::address_at(file, field.start, field.len);
                whole = print!(rt; "{address:012X}").and(whole);
                some = true;
            }
            NUMBER => {
                let number = catalogue_read::value_number(file, field.start, field.len);
                whole = print!(rt; " ").and(whole);
                whole = print!(rt; "{number}").and(whole);
            }
            _ => {}
        }
        at = field.start + field.len;
    }
    if some {
        whole = println!(rt).and(whole);
    }
    whole
}

// Twelve hexadecimal digits, upper or lower case.
pub fn address(word: &[u8]) -> Option<u64> {
    if word.len() != 12 || !word.iter().all(|b| b.is_ascii_hexdigit()) {
        return None;
    }
    u64::from_str_radix(std::str::from_utf8(word).ok()?, 16).ok()
}

// A number of at most 65,535, in at most five decimal digits.
pub fn version(word: &[u8]) -> Option<u16> {
    if 5 < word.len() || !word.iter().all(|b| b.is_ascii_digit()) {
        return None;
    }
    std::str::from_utf8(word).ok()?.parse().ok()
}
