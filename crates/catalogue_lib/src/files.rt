// Files by name: read whole, and replaced whole; - is standard input or output. What fails is said on standard error.
ghost use Rattle.std.specs.Prelude.{◌≡◌, ◌+◌, ◌≤◌, length, slice_index, take, IfOk, IfSome};

use crate::file_mode;
use std::fs::{File, OpenOptions, Permissions};
use std::io::{Error, ErrorKind, Read, Write};
use std::os::unix::fs::PermissionsExt;
use std::random::RandomSource;
use std::{fs, io};

// The largest file that is read or written. 64 cards with 8 versions each take 70,213 bytes; the rest is for unknown fields.
const ROOM: usize = 262144;

// That many zeros. The `ensures` gives only the length, which lending the array as a slice needs.
pub fn room() -> [u8; ROOM]
    ensures { 262144 ≡ length result }
{
    [0; ROOM]
}

// What was read of a file, at the start of the room, and whether the file goes on, or what failed behind those bytes.
#[derive(Clone, Copy)]
pub struct Got<'a> {
    pub bytes: &'a [u8],
    pub more: io::Result<bool>,
}

// Reads as much as the room holds. One byte more tells a read that failed, a folder's too, and a file that goes on.
fn take<'a, R: Read>(from: &mut R, room: &'a mut [u8]) -> Got<'a>
    ensures { length result.bytes.now ≤ length room.old }
{
    let len = host::read_full(from, room);
    let more = from.read(&mut [0u8; 1]).map(|n| 0 < n);
    Got {
        bytes: &room[..len],
        more,
    }
}

// Looks into the start of a file that may be missing, and says nothing.
pub fn peek<'a>(rt: &HostRuntime, path: &[u8], room: &'a mut [u8]) -> io::Result<Got<'a>>
    ensures { IfOk result (λ got. length got.bytes.now ≤ length room.old) }
{
    let mut file = host::open(rt, path)?;
    Ok(take(&mut file, room))
}

// Reads the start of a file, as much as the room holds; - is standard input. Says what failed; where the file does not open,
// nothing was read.
pub fn read_start<'a>(rt: &HostRuntime, path: &[u8], room: &'a mut [u8]) -> Got<'a>
    ensures { length result.bytes.now ≤ length room.old }
{
    let got = if catalogue_text::is_dash(path) {
        take(&mut rt.stdin(), room)
    } else {
        match peek(rt, path, room) {
            Ok(got) => got,
            Err(why) => Got {
                bytes: &[],
                more: Err(why),
            },
        }
    };
    if let Err(why) = got.more {
        host::fail(rt, catalogue_text::source(path), why);
    }
    got
}

// Reads a whole file. One that the room does not hold is refused.
pub fn read<'a>(rt: &HostRuntime, path: &[u8], room: &'a mut [u8]) -> Option<&'a [u8]>
    ensures { IfSome result (λ bytes. length bytes.now ≤ length room.old) }
{
    let size = room.len();
    let got = read_start(rt, path, room);
    match got.more {
        Ok(false) => Some(got.bytes),
        Ok(true) => {
            catalogue_text::larger(rt, path, size);
            None
        }
        Err(_) => None,
    }
}

// Writes a whole file, - to standard output, and answers whether it was written.
pub fn put(rt: &HostRuntime, path: &[u8], bytes: &[u8]) -> bool {
    if catalogue_text::is_dash(path) {
        let whole = catalogue_text::tell(rt, bytes);
        catalogue_text::told(rt, whole);
        return whole.is_ok();
    }
    replace(rt, path, bytes)
}

// The longest path that leaves room for a tail of seven bytes in what the system takes, 4,095.
pub const LONGEST: usize = 4088;

// A path with a tail behind it, put at the start of the room.
pub fn with_tail<'a>(room: &'a mut [u8; 4096], path: &[u8], tail: &[u8]) -> &'a mut [u8]
    requires { length path.now + length tail.now ≤ 4095 }
    ensures { length result.now ≡ length path.now + length tail.now }
{
    let name = &mut room[..path.len() + tail.len()];
    name[..path.len()].copy_from_slice(path);
    name[path.len()..].copy_from_slice(tail);
    name
}

// The bytes before the zero that ends a name.
fn ended(name: &[u8; 4096]) -> &[u8]
    requires { slice_index name.now 4095 ≡ 0 }
{
    let end = name.iter().position(|b| *b == 0).unwrap();
    &name[..end]
}

// Whether a path may be written, so that a rename takes the place of a file or of nothing. Says why not.
pub fn may_be_written(rt: &HostRuntime, path: &[u8]) -> bool
    requires { length path.now ≤ 4088 }
{
    if is_link(rt, path) {
        catalogue_text::link(rt, path);
        return false;
    }
    if let Err(why) = may_be_replaced(rt, path) {
        host::fail(rt, path, why);
        return false;
    }
    true
}

// Whether the path is a symbolic link, which a rename would take the place of. One whose text std does not hand on is one too.
fn is_link(rt: &HostRuntime, path: &[u8]) -> bool
    requires { length path.now ≤ 4088 }
{
    let mut name = [0u8; 4096];
    name[..path.len()].copy_from_slice(path);
    name[4095] = 0;
    let Ok(text) = host::name(ended(&name)) else {
        return false;
    };
    match fs::read_link(rt, text) {
        Ok(_) => true,
        Err(why) => why.raw_os_error().is_none(),
    }
}

// Whether the path is free, or a file that may be written and flushed; so no folder, pipe or /dev/null. Where not, the error
// says why.
fn may_be_replaced(rt: &HostRuntime, path: &[u8]) -> io::Result<()> {
    let name = host::name(path)?;
    match OpenOptions::new().read(true).write(true).open(rt, name) {
        Ok(file) => file.sync_all(),
        Err(why) if why.kind() == ErrorKind::NotFound && path.len() != 0 => Ok(()),
        Err(why) => Err(why),
    }
}

// Writes the bytes to a temporary file in the same folder, flushes it to disk and renames it over the path:
// a crash leaves the old or the new file whole. Answers whether it was done.
fn replace(rt: &HostRuntime, path: &[u8], bytes: &[u8]) -> bool {
    if LONGEST < path.len() {
        catalogue_text::too_long(rt, path);
        return false;
    }
    if !may_be_written(rt, path) {
        return false;
    }
    let mut room = [0u8; 4096];
    let name = with_tail(&mut room, path, b".XXXXXX");
    if let Err(why) = write_over(rt, path, name, bytes) {
        host::fail(rt, path, why);
        return false;
    }
    true
}

// The same, with the temporary file's name, which ends in XXXXXX.
fn write_over(rt: &HostRuntime, path: &[u8], name: &mut [u8], bytes: &[u8]) -> io::Result<()> {
    let file = create_temp(rt, name)?;
    let done = filled_and_renamed(rt, path, file, name, bytes);
    if done.is_err() {
        let _ = remove(rt, name);
        return done;
    }
    flush_folder(rt, path);
    Ok(())
}

fn filled_and_renamed(
    rt: &HostRuntime,
    path: &[u8],
    mut file: File,
    name: &[u8],
    bytes: &[u8],
) -> io::Result<()> {
    fill(rt, path, &mut file, bytes)?;
    drop(file);
    fs::rename(rt, host::name(name)?, host::name(path)?)
}

// Gives the new file the mode of the one at the path, its nine bits of permission; where none is there, there is nothing to
// keep.
fn keep_mode(rt: &HostRuntime, path: &[u8], file: &File) -> io::Result<()> {
    let old = match host::open(rt, path) {
        Ok(old) => old,
        Err(why) if why.kind() == ErrorKind::NotFound => return Ok(()),
        Err(why) => return Err(why),
    };
    match file_mode::mode_of(&old) {
        Some(mode) => file.set_permissions(Permissions::from_mode(mode % 512)),
        None => Err(Error::other("the system does not tell its mode")),
    }
}

// Settles the mode before a byte is in the file, writes the bytes and flushes them to disk.
fn fill(rt: &HostRuntime, path: &[u8], file: &mut File, bytes: &[u8]) -> io::Result<()> {
    keep_mode(rt, path, file)?;
    file.write_all(bytes)?;
    file.sync_all()
}

// Makes a file that no one else has made, with the mode of any new file.
pub fn create(rt: &HostRuntime, name: &[u8]) -> io::Result<File> {
    OpenOptions::new()
        .write(true)
        .create_new(true)
        .open(rt, host::name(name)?)
}

pub fn remove(rt: &HostRuntime, name: &[u8]) -> io::Result<()> {
    fs::remove_file(rt, host::name(name)?)
}

// How many names are tried for a temporary file, as often as mkstemp does.
const NAMES: usize = 238328;

// Makes the temporary file, under a name that is free: letters and digits that chance picks take the place of the name's last six
// bytes.
fn create_temp(rt: &HostRuntime, name: &mut [u8]) -> io::Result<File> {
    for _ in 0..NAMES {
        draw_tail(rt, name)?;
        match create(rt, name) {
            Err(why) if why.kind() == ErrorKind::AlreadyExists => {}
            made => return made,
        }
    }
    create(rt, name)
}

// Puts six letters and digits at a name's end.
fn draw_tail(rt: &HostRuntime, name: &mut [u8]) -> io::Result<()> {
    let mut drawn = [0u8; 6];
    rt.fill_bytes(&mut drawn)?;
    for (place, byte) in name.iter_mut().rev().zip(drawn) {
        *place = letter(byte);
    }
    Ok(())
}

// One of 62 letters and digits.
fn letter(drawn: u8) -> u8 {
    match drawn % 62 {
        n @ 0..=25 => b'a' + n,
        n @ 26..=51 => b'A' + (n - 26),
        n => b'0' + (n - 52),
    }
}

// Flushes the folder that a file stands in, so that the new name lasts too. Not every kind of file system can.
fn flush_folder(rt: &HostRuntime, path: &[u8]) {
    if let Ok(open) = host::open(rt, folder(path).unwrap_or(b".")) {
        let _ = open.sync_all();
    }
}

// The front of a path that names its folder, the last slash among it; none where the path names a file alone.
fn folder(path: &[u8]) -> Option<&[u8]>
    ensures { IfSome result (λ front. front.now ≡ take (length front.now) path.now) }
{
    let slash = path.iter().rposition(|b| *b == b'/')?;
    Some(&path[..slash + 1])
}
