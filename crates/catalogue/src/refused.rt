// What is said of a refusal: a line that begins with its number, and says where the refused bytes are wrong.
use catalogue_text::{source, warn};
use catalogue_why::{Again, Full, Pair};
use refusal::Refusal;

fn begin(rt: &HostRuntime, why: Refusal) {
    warn(rt, b"refused ");
    let _ = eprint!(rt; "{}", refusal::number(why));
    warn(rt, b": ");
}

fn at_byte(rt: &HostRuntime, what: &[u8], place: usize) {
    warn(rt, what);
    warn(rt, b", at byte ");
    let _ = eprint!(rt; "{place}");
}

fn listed_twice(rt: &HostRuntime, file: &[u8]) {
    let nowhere = Again {
        address: 0,
        at: catalogue_why::end(file),
    };
    let Again { address, at } = catalogue_why::repeated(file).unwrap_or(nowhere);
    warn(rt, b"an address is listed twice: ");
    let _ = eprint!(rt; "{address:012X}");
    warn(rt, b", again at byte ");
    let _ = eprint!(rt; "{at}");
}

fn too_many(rt: &HostRuntime, cards: usize) {
    warn(rt, b"no room for a card: it has ");
    let _ = eprint!(rt; "{cards}");
}

// What is wrong with a file, or with the image that is to go in.
fn words(rt: &HostRuntime, file: &[u8], why: Refusal) {
    match why {
        Refusal::LengthOutside => warn(rt, b"not 128 bytes to an image"),
        Refusal::MakerWrong => warn(rt, b"word 07h of an image is not 6D50h"),
        Refusal::ChecksumWrong => warn(rt, b"word 0Fh of an image is not the checksum"),
        Refusal::SecondaryWrong => warn(rt, b"word 17h of an image is not the secondary checksums"),
        Refusal::ArgumentOutside => warn(rt, b"no room to write the changed file"),
        Refusal::FieldDamaged => at_byte(rt, b"a field is damaged", catalogue_why::damage(file)),
        Refusal::FileEndsEarly => at_byte(rt, b"the file ends early", catalogue_why::end(file)),
        Refusal::NoSuchCard => warn(rt, b"no such card"),
        Refusal::NoPlace => too_many(rt, catalogue_why::cards(file)),
        Refusal::ListedTwice => listed_twice(rt, file),
        _ => warn(rt, b"no"),
    }
}

// Of a file that was to be read, or of a card that it was to have.
pub fn file(rt: &HostRuntime, file: &[u8], why: Refusal) {
    begin(rt, why);
    words(rt, file, why);
    warn(rt, b"\n");
}

// Of a version of a card.
pub fn version(rt: &HostRuntime, file: &[u8], address: u64, why: Refusal) {
    begin(rt, why);
    if why == Refusal::NoSuchCard && catalogue_read::listed(file, 0, address) {
        warn(rt, b"no such version\n");
        return;
    }
    words(rt, file, why);
    warn(rt, b"\n");
}

fn full(rt: &HostRuntime, file: &[u8], address: u64) {
    match catalogue_why::no_room(file, address) {
        Full::Cards => warn(rt, b"no room for a card: 64 are there"),
        Full::Versions => warn(rt, b"no room for a version: the card has 8"),
        Full::Numbers => warn(rt, b"no room for a number: the latest is 65535"),
        Full::Fields => warn(rt, b"no room for a field: the count goes to 65535"),
    }
}

// Of a version that was to go in.
pub fn addition(rt: &HostRuntime, file: &[u8], image: &[u8], why: Refusal) {
    begin(rt, why);
    if why == Refusal::NoPlace && catalogue_why::cards(file) <= 64 {
        full(rt, file, catalogue_add::address_of(image));
    } else {
        words(rt, file, why);
    }
    warn(rt, b"\n");
}

// A word of the first image that has it wrong.
fn word_of(rt: &HostRuntime, archive: &[u8], word: &[u8], why: Refusal, is_not: &[u8]) {
    let image = catalogue_why::unsound(archive, refusal::number(why)).unwrap_or(0);
    warn(rt, word);
    warn(rt, b" of image ");
    let _ = eprint!(rt; "{image}");
    warn(rt, is_not);
}

fn twins(rt: &HostRuntime, archive: &[u8]) {
    let none = Pair {
        first: 0,
        second: 0,
    };
    let Pair { first, second } = catalogue_why::twins(archive).unwrap_or(none);
    warn(rt, b"images ");
    let _ = eprint!(rt; "{first}");
    warn(rt, b" and ");
    let _ = eprint!(rt; "{second}");
    warn(rt, b" have one address");
}

fn cut_image(rt: &HostRuntime, archive: &[u8]) {
    let image = archive.len() / 128 + 1;
    warn(rt, b"not 128 bytes to an image: image ");
    let _ = eprint!(rt; "{image}");
    warn(rt, b" is cut");
}

// Of an archive that was to be moved in.
pub fn archive(rt: &HostRuntime, archive: &[u8], why: Refusal) {
    begin(rt, why);
    match why {
        Refusal::LengthOutside => cut_image(rt, archive),
        Refusal::MakerWrong => word_of(rt, archive, b"word 07h", why, b" is not 6D50h"),
        Refusal::ChecksumWrong => word_of(rt, archive, b"word 0Fh", why, b" is not the checksum"),
        Refusal::SecondaryWrong => word_of(
            rt,
            archive,
            b"word 17h",
            why,
            b" is not the secondary checksums",
        ),
        Refusal::NoPlace => too_many(rt, archive.len() / 128),
        Refusal::ListedTwice => twins(rt, archive),
        _ => words(rt, archive, why),
    }
    warn(rt, b"\n");
}

fn named(rt: &HostRuntime, file: &[u8], path: &[u8], why: Refusal) {
    words(rt, file, why);
    warn(rt, b", in ");
    warn(rt, source(path));
    warn(rt, b"\n");
}

// Of a card that one of two files was to have: the override is judged first, and a card that neither has is no file's own.
pub fn lookup(
    rt: &HostRuntime,
    own: &[u8],
    own_path: &[u8],
    main: &[u8],
    main_path: &[u8],
    why: Refusal,
) {
    begin(rt, why);
    if why == Refusal::NoSuchCard {
        warn(rt, b"no such card\n");
    } else if catalogue_read::check(own).is_err_and(|due| due == why) {
        named(rt, own, own_path, why);
    } else {
        named(rt, main, main_path, why);
    }
}
