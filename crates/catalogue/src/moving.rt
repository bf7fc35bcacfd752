// The commands that move an archive in and out. What stands at the file that they write is written over only when asked.
use crate::refused;
use catalogue_lib::{files, lock};
use refusal::Refusal;

// Which way an archive is moved: `import` or `export`.
#[derive(Clone, Copy)]
pub enum Way {
    In,
    Out,
}

// Whether a file with at least a byte stands at the path.
fn has_bytes(rt: &HostRuntime, path: &[u8]) -> bool {
    let mut start = [0u8; 1];
    !catalogue_text::is_dash(path)
        && files::peek(rt, path, &mut start).is_ok_and(|got| got.more.is_ok()
            && !got.bytes.is_empty())
}

// Whether a sound catalogue stands at the path, the one that is moved out among them.
fn has_catalogue(rt: &HostRuntime, path: &[u8]) -> bool {
    let mut room = files::room();
    !catalogue_text::is_dash(path)
        && files::peek(rt, path, &mut room).is_ok_and(|got| matches!(got.more, Ok(false))
            && catalogue_read::check(got.bytes).is_ok())
}

// Whether something stands at the path that is kept: every file with bytes from an archive that is moved in, a catalogue
// from one that is moved out, which often takes the place of an older archive. Says so.
fn is_kept(rt: &HostRuntime, way: Way, path: &[u8]) -> bool {
    match way {
        Way::In if has_bytes(rt, path) => catalogue_text::stands(rt, path),
        Way::Out if has_catalogue(rt, path) => catalogue_text::catalogue_stands(rt, path),
        _ => return false,
    }
    true
}

fn moved(way: Way, file: &[u8], out: &mut [u8]) -> Result<usize, Refusal> {
    match way {
        Way::In => catalogue_row::import(file, out),
        Way::Out => catalogue_row::export(file, out),
    }
}

fn refuse(rt: &HostRuntime, way: Way, file: &[u8], why: Refusal) {
    match way {
        Way::In => refused::archive(rt, file, why),
        Way::Out => refused::file(rt, file, why),
    }
}

fn move_to(rt: &HostRuntime, way: Way, from: &[u8], path: &[u8]) {
    let mut room = files::room();
    let Some(file) = files::read(rt, from, &mut room) else {
        return;
    };
    let mut out = files::room();
    match moved(way, file, &mut out) {
        Err(why) => refuse(rt, way, file, why),
        Ok(size) => {
            files::put(rt, path, catalogue_lookup::part(&out, 0, size));
        }
    }
}

// The command, from one file to another.
pub fn archive(rt: &HostRuntime, way: Way, from: &[u8], path: &[u8], replace: bool) {
    if !lock::take(rt, path) {
        return;
    }
    if replace || !is_kept(rt, way, path) {
        move_to(rt, way, from, path);
    }
    lock::release(rt, path);
}
