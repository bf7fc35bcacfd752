// The commands that change nothing.
use crate::refused;
use catalogue_lib::files;
use catalogue_rules::{Counts, Span};
use image_rules::WordOffset;
use refusal::Refusal;
use std::io;

// A sound file and its counts; of another one says why.
fn sound<'a>(rt: &HostRuntime, path: &[u8], room: &'a mut [u8]) -> Option<(&'a [u8], Counts)> {
    let file = files::read(rt, path, room)?;
    match catalogue_read::check(file) {
        Ok(counts) => Some((file, counts)),
        Err(why) => {
            refused::file(rt, file, why);
            None
        }
    }
}

pub fn list(rt: &HostRuntime, path: &[u8]) {
    let mut room = files::room();
    if let Some((file, _)) = sound(rt, path, &mut room) {
        catalogue_text::cards(rt, file);
    }
}

pub fn check(rt: &HostRuntime, path: &[u8]) {
    let mut room = files::room();
    if let Some((_, counts)) = sound(rt, path, &mut room) {
        catalogue_text::sound(rt, counts);
    }
}

// The image of a card at a place of the file.
fn put(rt: &HostRuntime, file: &[u8], address: u64, place: Result<Span, Refusal>) {
    match place {
        Err(why) => refused::version(rt, file, address, why),
        Ok(Span { start, len }) => {
            let image = catalogue_lookup::part(file, start, len);
            catalogue_text::told(rt, catalogue_text::tell(rt, image));
        }
    }
}

pub fn latest(rt: &HostRuntime, path: &[u8], address: &[u8]) {
    let Some(who) = catalogue_text::address(address) else {
        catalogue_text::usage(rt);
        return;
    };
    let mut room = files::room();
    if let Some(file) = files::read(rt, path, &mut room) {
        put(rt, file, who, catalogue_lookup::latest(file, who));
    }
}

pub fn given(rt: &HostRuntime, path: &[u8], address: &[u8], version: &[u8]) {
    let (Some(who), Some(which)) = (
        catalogue_text::address(address),
        catalogue_text::version(version),
    ) else {
        catalogue_text::usage(rt);
        return;
    };
    let mut room = files::room();
    if let Some(file) = files::read(rt, path, &mut room) {
        put(rt, file, who, catalogue_lookup::given(file, who, which));
    }
}

// A line for each word that differs.
fn compare(rt: &HostRuntime, old: &[u8], new: &[u8]) -> io::Result<()> {
    let mut whole = Ok(());
    for word in 0..64 {
        let before = image_check::word_at(old, WordOffset(word));
        let now = image_check::word_at(new, WordOffset(word));
        if before != now {
            whole = catalogue_text::changed(rt, word, before, now).and(whole);
        }
    }
    whole
}

// The places of two versions. The second may be missing where the file is refused with a higher number.
fn both(old: Result<Span, Refusal>, new: Result<Span, Refusal>) -> Result<(Span, Span), Refusal> {
    if let Err(Refusal::NoSuchCard) = new {
        return Err(Refusal::NoSuchCard);
    }
    Ok((old?, new?))
}

// The words in which two versions of a card differ.
fn put_changes(rt: &HostRuntime, file: &[u8], address: u64, places: Result<(Span, Span), Refusal>) {
    match places {
        Err(why) => refused::version(rt, file, address, why),
        Ok((old, new)) => catalogue_text::told(
            rt,
            compare(
                rt,
                catalogue_lookup::part(file, old.start, old.len),
                catalogue_lookup::part(file, new.start, new.len),
            ),
        ),
    }
}

pub fn diff(rt: &HostRuntime, path: &[u8], address: &[u8], old: &[u8], new: &[u8]) {
    let (Some(who), Some(before), Some(now)) = (
        catalogue_text::address(address),
        catalogue_text::version(old),
        catalogue_text::version(new),
    ) else {
        catalogue_text::usage(rt);
        return;
    };
    let mut room = files::room();
    if let Some(file) = files::read(rt, path, &mut room) {
        let places = both(
            catalogue_lookup::given(file, who, before),
            catalogue_lookup::given(file, who, now),
        );
        put_changes(rt, file, who, places);
    }
}

// The latest version of a card, out of the override catalogue if it has that card, else out of the main one.
fn show_either(rt: &HostRuntime, override_path: &[u8], path: &[u8], who: u64) {
    let mut room = files::room();
    let Some(own) = files::read(rt, override_path, &mut room) else {
        return;
    };
    let mut other = files::room();
    let Some(main) = files::read(rt, path, &mut other) else {
        return;
    };
    let hit = catalogue_lookup::lookup(own, main, who);
    if let Err(why) = hit {
        refused::lookup(rt, own, override_path, main, path, why);
        return;
    }
    let image = catalogue_lookup::image_of(own, main, hit);
    catalogue_text::told(rt, catalogue_text::tell(rt, image));
}

pub fn lookup(rt: &HostRuntime, override_path: &[u8], path: &[u8], address: &[u8]) {
    let both = catalogue_text::is_dash(override_path) && catalogue_text::is_dash(path);
    match catalogue_text::address(address) {
        Some(who) if !both => show_either(rt, override_path, path, who),
        _ => catalogue_text::usage(rt),
    }
}
