// A lock beside a file that is changed, so that no two programs change it at once.
use crate::files;
use std::fs::File;
use std::io::ErrorKind;
use std::{hint, io};

// How often a lock that stands is tried again, within a tenth of a second: a change takes some thousandths.
const TRIES: usize = 50000;

// Makes the file, which no other program can make while it stands.
fn made(rt: &HostRuntime, name: &[u8]) -> io::Result<File> {
    for _ in 0..TRIES {
        match files::create(rt, name) {
            Err(why) if why.kind() == ErrorKind::AlreadyExists => hint::spin_loop(),
            made => return made,
        }
    }
    files::create(rt, name)
}

// Takes the lock of a path that is to be changed, after a look at whether it may be; - needs none. Says why not.
pub fn take(rt: &HostRuntime, path: &[u8]) -> bool {
    if catalogue_text::is_dash(path) {
        return true;
    }
    if files::LONGEST < path.len() {
        catalogue_text::too_long(rt, path);
        return false;
    }
    if !files::may_be_written(rt, path) {
        return false;
    }
    let mut room = [0u8; 4096];
    match made(rt, files::with_tail(&mut room, path, b".lock")) {
        Ok(_) => true,
        Err(why) if why.kind() == ErrorKind::AlreadyExists => {
            catalogue_text::locked(rt, path);
            false
        }
        Err(why) => {
            host::fail(rt, path, why);
            false
        }
    }
}

// Lets go of a lock that was taken. One that cannot be removed is told.
pub fn release(rt: &HostRuntime, path: &[u8]) {
    if catalogue_text::is_dash(path) || files::LONGEST < path.len() {
        return;
    }
    let mut room = [0u8; 4096];
    let name = files::with_tail(&mut room, path, b".lock");
    if let Err(why) = files::remove(rt, name) {
        host::fail(rt, name, why);
    }
}
