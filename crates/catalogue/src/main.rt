#![tactic(auto)]
// The catalogue at a shell: `catalogue list FILE` and the other commands that `catalogue_text::usage` names.
ghost use Rattle.std.specs.Prelude.{◌≤◌, length, IfSome};

use moving::Way;
use std::env::FillError;
use std::rt::Env;

mod change;
mod moving;
mod refused;
mod show;

// A command that moves an archive: two names, and --replace once at any place behind the command, or not at all.
fn archive(rt: &HostRuntime, way: Way, words: &[&[u8]]) {
    let mut names = words.iter().filter(|word| !matches!(**word, b"--replace"));
    match (names.next(), names.next(), names.next()) {
        (Some(from), Some(path), None) if words.len() <= 3 => {
            moving::archive(rt, way, from, path, words.len() == 3)
        }
        _ => catalogue_text::usage(rt),
    }
}

// The command, with what stands behind it.
fn run(rt: &HostRuntime, words: &[&[u8]]) {
    match words {
        [b"list", file] => show::list(rt, file),
        [b"check", file] => show::check(rt, file),
        [b"show", file, address] => show::latest(rt, file, address),
        [b"show", file, address, version] => show::given(rt, file, address, version),
        [b"diff", file, address, old, new] => show::diff(rt, file, address, old, new),
        [b"lookup", own, file, address] => show::lookup(rt, own, file, address),
        [b"add", file, image] => change::add(rt, file, image),
        [b"drop", file, address] => change::drop(rt, file, address),
        [b"import", names @ ..] => archive(rt, Way::In, names),
        [b"export", names @ ..] => archive(rt, Way::Out, names),
        _ => catalogue_text::usage(rt),
    }
}

// An argument put into the room: empty where it is missing, and none where the room is too small.
fn argument<'a>(rt: &HostRuntime, i: usize, room: &'a mut [u8; 4096]) -> Option<&'a [u8]>
    ensures { IfSome result (λ word. length word.now ≤ 4096) }
{
    match rt.arg(i, room) {
        Ok(n) => Some(&room[..n]),
        Err(FillError::NotPresent) => Some(&[]),
        Err(FillError::TooLong) => None,
    }
}

fn main(rt: HostRuntime) {
    // A room each: the borrow check does not cover an array of rooms that is lent in parts.
    let mut one = [0u8; 4096];
    let mut two = [0u8; 4096];
    let mut three = [0u8; 4096];
    let mut four = [0u8; 4096];
    let mut five = [0u8; 4096];
    let (Some(a), Some(b), Some(c), Some(d), Some(e)) = (
        argument(&rt, 1, &mut one),
        argument(&rt, 2, &mut two),
        argument(&rt, 3, &mut three),
        argument(&rt, 4, &mut four),
        argument(&rt, 5, &mut five),
    ) else {
        catalogue_text::warn(&rt, b"an argument is longer than 4,096 bytes\n");
        return;
    };
    let words = [a, b, c, d, e];
    let given = host::arg_count(&rt).saturating_sub(1);
    run(&rt, words.get(..given).unwrap_or(&[]));
}
