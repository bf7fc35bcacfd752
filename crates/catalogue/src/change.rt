// The commands that change a catalogue.
use crate::refused;
use catalogue_lib::{files, lock};

// The version that an image's card has got, read out of the new file.
fn say_version(rt: &HostRuntime, file: &[u8], image: &[u8]) {
    let address = catalogue_add::address_of(image);
    if let Some(at) = catalogue_put::card_place(file, address) {
        catalogue_text::added(rt, catalogue_put::last_number(file, at), address);
    }
}

// Writes the new file, and says what version it has got; nothing where the file itself goes to standard output.
fn put_added(rt: &HostRuntime, path: &[u8], file: &[u8], image: &[u8]) {
    if files::put(rt, path, file) && !catalogue_text::is_dash(path) {
        say_version(rt, file, image);
    }
}

fn add_to(rt: &HostRuntime, path: &[u8], from: &[u8]) {
    let mut room = files::room();
    let Some(file) = files::read(rt, path, &mut room) else {
        return;
    };
    // One byte more than an image has tells a longer file.
    let mut start = [0u8; 129];
    let image = files::read_start(rt, from, &mut start);
    if image.more.is_err() {
        return;
    }
    let mut out = files::room();
    match catalogue_add::add(file, image.bytes, &mut out) {
        Err(why) => refused::addition(rt, file, image.bytes, why),
        Ok(size) => put_added(rt, path, catalogue_lookup::part(&out, 0, size), image.bytes),
    }
}

pub fn add(rt: &HostRuntime, path: &[u8], from: &[u8]) {
    if catalogue_text::is_dash(path) && catalogue_text::is_dash(from) {
        catalogue_text::usage(rt);
        return;
    }
    if !lock::take(rt, path) {
        return;
    }
    add_to(rt, path, from);
    lock::release(rt, path);
}

fn drop_from(rt: &HostRuntime, path: &[u8], address: u64) {
    let mut room = files::room();
    let Some(file) = files::read(rt, path, &mut room) else {
        return;
    };
    let mut out = files::room();
    match catalogue_drop::drop_oldest(file, address, &mut out) {
        Err(why) => refused::file(rt, file, why),
        Ok(size) => {
            files::put(rt, path, catalogue_lookup::part(&out, 0, size));
        }
    }
}

pub fn drop(rt: &HostRuntime, path: &[u8], address: &[u8]) {
    let Some(who) = catalogue_text::address(address) else {
        catalogue_text::usage(rt);
        return;
    };
    if !lock::take(rt, path) {
        return;
    }
    drop_from(rt, path, who);
    lock::release(rt, path);
}
