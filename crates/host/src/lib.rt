#![tactic(auto)]
// What the programs ask of the system beside std: their arguments counted, files by names of bytes, a room filled, and what
// failed told in the system's words. Proved safe and ending; what is written is tested.
ghost use Rattle.std.specs.Io.{ReadsAtMost};
ghost use Rattle.host.specs.Counts.{IsPrefixLen};

use std::env::FillError;
use std::fs::File;
use std::io::{Error, Print, Read};
use std::rt::Env;
use std::{fs, io};

// The system's numbers for an argument that is not there, one that is too long, and a name that is no text.
const MISSING: i32 = 22;

const TOO_LONG: i32 = 36;

const NO_TEXT: i32 = 84;

// How many arguments the program was started with, its own name among them.
pub fn arg_count(rt: &HostRuntime) -> usize {
    for i in 0..usize::MAX {
        if let Err(FillError::NotPresent) = rt.arg(i, &mut []) {
            return i;
        }
    }
    usize::MAX
}

// Puts argument i at the start of the room and answers its length.
pub fn arg(rt: &HostRuntime, i: usize, room: &mut [u8]) -> io::Result<usize>
    ensures { ReadsAtMost result room.new }
{
    match rt.arg(i, room) {
        Ok(n) => Ok(n),
        Err(FillError::NotPresent) => Err(Error::from_raw_os_error(MISSING)),
        Err(FillError::TooLong) => Err(Error::from_raw_os_error(TOO_LONG)),
    }
}

// A file's name as std takes it: text. One that is not UTF-8 opens no file.
pub fn name(path: &[u8]) -> io::Result<&str> {
    std::str::from_utf8(path).map_err(|_| Error::from_raw_os_error(NO_TEXT))
}

// Opens a file to read it.
pub fn open(rt: &HostRuntime, path: &[u8]) -> io::Result<File> {
    fs::open(rt, name(path)?)
}

// Reads until the room is full, the input ends or a read fails, and answers how many bytes were put at the start of the room.
// By hand: std's `read_exact` does not say how many came where the input ends.
pub fn read_full<R: Read>(from: &mut R, room: &mut [u8]) -> usize
    ensures { IsPrefixLen result room.new }
{
    let mut done = 0;
    while done < room.len() {
        match from.read(&mut room[done..]) {
            Ok(n) if 0 < n => done += n,
            _ => break,
        }
    }
    done
}

// A line on standard error: what failed, as the caller names it, a colon and the system's words for why.
pub fn fail(rt: &HostRuntime, what: &[u8], why: Error) {
    let to = rt.stderr();
    let _ = to.write_all(what);
    let _ = to.write_all(b": ");
    tell_why(rt, why);
    let _ = to.write_all(b"\n");
}

// The system's words alone. std puts a number behind them, and where no memory is left it stays.
fn tell_why(rt: &HostRuntime, why: Error) {
    let to = rt.stderr();
    let Ok(words) = format!(in rt.alloc(); "{why}") else {
        let _ = to.print(why);
        return;
    };
    let _ = match words.as_str().rsplit_once(" (os error ") {
        Some((front, _)) => to.print(front),
        None => to.print(words.as_str()),
    };
}
