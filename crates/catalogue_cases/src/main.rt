#![tactic(auto)]
// Makes the calls of the catalogue that its arguments name and prints what each answers, a line each. A call is five
// words: its name, two operands, the size of the lent area (or most, for as much as a file may have), and the file that
// has the bytes it is to write; - for none.
ghost use Rattle.std.specs.Prelude.{◌+◌, ◌<◌, ◌≤◌, length};

use catalogue_lib::files;
use catalogue_rules::{Hit, Span};
use refusal::Refusal;

// Says so; what standard output does not take is lost.
fn tell(rt: &HostRuntime, text: &[u8]) {
    let _ = catalogue_text::tell(rt, text);
}

fn refused(rt: &HostRuntime, why: Refusal) {
    tell(rt, b"refused ");
    let _ = print!(rt; "{}", refusal::number(why));
    tell(rt, b"\n");
}

// What a file begins with, as much as the room holds, and what came before a read that failed. Says what failed, or that the
// file is larger.
fn read<'a>(rt: &HostRuntime, path: &[u8], room: &'a mut [u8]) -> &'a [u8] {
    let size = room.len();
    let got = files::read_start(rt, path, room);
    if let Ok(true) = got.more {
        catalogue_text::larger(rt, path, size);
    }
    got.bytes
}

fn check(rt: &HostRuntime, a: &[u8]) {
    match catalogue_read::check(read(rt, a, &mut files::room())) {
        Err(why) => refused(rt, why),
        Ok(counts) => catalogue_text::sound(rt, counts),
    }
}

fn at(rt: &HostRuntime, what: &[u8], span: Span) {
    let Span { start, len } = span;
    tell(rt, what);
    let _ = print!(rt; "{len}");
    tell(rt, b" bytes at ");
    let _ = print!(rt; "{start}");
    tell(rt, b"\n");
}

fn place(rt: &HostRuntime, found: Result<Span, Refusal>) {
    match found {
        Err(why) => refused(rt, why),
        Ok(span) => at(rt, b"", span),
    }
}

// An address; 0 where the word is none, as the stored runs have it.
fn address(word: &[u8]) -> u64 {
    catalogue_text::address(word).unwrap_or(0)
}

fn latest(rt: &HostRuntime, a: &[u8], b: &[u8]) {
    let mut room = files::room();
    let file = read(rt, a, &mut room);
    place(rt, catalogue_lookup::latest(file, address(b)));
}

// A version's number stands in the place of the area's size.
fn given(rt: &HostRuntime, a: &[u8], b: &[u8], number: u16) {
    let mut room = files::room();
    let file = read(rt, a, &mut room);
    place(rt, catalogue_lookup::given(file, address(b), number));
}

// The address stands in the place of the area's size.
fn lookup(rt: &HostRuntime, a: &[u8], b: &[u8], who: &[u8]) {
    let mut room = files::room();
    let own = read(rt, a, &mut room);
    let mut other = files::room();
    let main = read(rt, b, &mut other);
    match catalogue_lookup::lookup(own, main, address(who)) {
        Err(why) => refused(rt, why),
        Ok(Hit::InOverride(span)) => at(rt, b"override, ", span),
        Ok(Hit::InMain(span)) => at(rt, b"main, ", span),
    }
}

// What a change answered, and whether the area begins with the bytes of a file.
fn written(rt: &HostRuntime, change: Result<usize, Refusal>, out: &[u8], res: &[u8]) {
    match change {
        Err(why) => refused(rt, why),
        Ok(n) => {
            tell(rt, b"bytes ");
            let _ = print!(rt; "{n}");
            let mut room = files::room();
            if catalogue_lookup::part(out, 0, n) == read(rt, res, &mut room) {
                tell(rt, b", those of ");
            } else {
                tell(rt, b", NOT those of ");
            }
            tell(rt, res);
            tell(rt, b"\n");
        }
    }
}

fn add(rt: &HostRuntime, a: &[u8], b: &[u8], out: &mut [u8], res: &[u8]) {
    let mut room = files::room();
    let file = read(rt, a, &mut room);
    let mut image = [0u8; 129];
    let image = files::read_start(rt, b, &mut image);
    let change = catalogue_add::add(file, image.bytes, out);
    written(rt, change, out, res);
}

fn drop(rt: &HostRuntime, a: &[u8], b: &[u8], out: &mut [u8], res: &[u8]) {
    let mut room = files::room();
    let file = read(rt, a, &mut room);
    let change = catalogue_drop::drop_oldest(file, address(b), out);
    written(rt, change, out, res);
}

fn import(rt: &HostRuntime, a: &[u8], out: &mut [u8], res: &[u8]) {
    let mut room = files::room();
    let change = catalogue_row::import(read(rt, a, &mut room), out);
    written(rt, change, out, res);
}

fn export(rt: &HostRuntime, a: &[u8], out: &mut [u8], res: &[u8]) {
    let mut room = files::room();
    let change = catalogue_row::export(read(rt, a, &mut room), out);
    written(rt, change, out, res);
}

// A call that is lent an area.
fn change(rt: &HostRuntime, call: &[u8], a: &[u8], b: &[u8], out: &mut [u8], res: &[u8]) {
    match call {
        b"add" => add(rt, a, b, out, res),
        b"drop" => drop(rt, a, b, out, res),
        b"import" => import(rt, a, out, res),
        b"export" => export(rt, a, out, res),
        _ => tell(rt, b"no such call\n"),
    }
}

// Lends an area of so many bytes.
fn lend(rt: &HostRuntime, call: &[u8], a: &[u8], b: &[u8], size: u16, res: &[u8]) {
    let mut out = [0u8; 65536];
    change(rt, call, a, b, &mut out[..usize::from(size)], res);
}

// Lends as much as the largest file takes.
fn lend_most(rt: &HostRuntime, call: &[u8], a: &[u8], b: &[u8], res: &[u8]) {
    let mut out = files::room();
    change(rt, call, a, b, &mut out, res);
}

fn run(rt: &HostRuntime, call: &[u8], a: &[u8], b: &[u8], size: &[u8], res: &[u8]) {
    let number = catalogue_text::version(size).unwrap_or(0);
    match (call, size) {
        (b"check", _) => check(rt, a),
        (b"latest", _) => latest(rt, a, b),
        (b"given", _) => given(rt, a, b, number),
        (b"lookup", _) => lookup(rt, a, b, size),
        (_, b"most") => lend_most(rt, call, a, b, res),
        _ => lend(rt, call, a, b, number, res),
    }
}

// What is printed of a call: its words, and its answer.
fn case(rt: &HostRuntime, call: &[u8], a: &[u8], b: &[u8], size: &[u8], res: &[u8]) {
    tell(rt, call);
    for word in [a, b, size] {
        tell(rt, b" ");
        tell(rt, word);
    }
    tell(rt, b": ");
    run(rt, call, a, b, size, res);
}

// An argument put into the room; empty where it is missing or too long.
fn word<'a>(rt: &HostRuntime, i: usize, room: &'a mut [u8; 4096]) -> &'a [u8]
    ensures { length result.now ≤ 4096 }
{
    match host::arg(rt, i, room) {
        Ok(n) => &room[..n],
        Err(_) => &[],
    }
}

// The call whose words are the arguments from `first` on.
fn arguments(rt: &HostRuntime, first: usize)
    requires { first + 4 < 18446744073709551616 }
{
    // A room each: the borrow check does not cover an array of rooms that is lent in parts.
    let mut call = [0u8; 4096];
    let mut one = [0u8; 4096];
    let mut two = [0u8; 4096];
    let mut size = [0u8; 4096];
    let mut result = [0u8; 4096];
    case(
        rt,
        word(rt, first, &mut call),
        word(rt, first + 1, &mut one),
        word(rt, first + 2, &mut two),
        word(rt, first + 3, &mut size),
        word(rt, first + 4, &mut result),
    );
}

fn main(rt: HostRuntime) {
    for i in 0..host::arg_count(&rt) / 5 {
        arguments(&rt, 5 * i + 1);
    }
}
