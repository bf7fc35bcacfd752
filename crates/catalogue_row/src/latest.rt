// The latest image of each card, written into a lent area.
ghost use Rattle.std.specs.Prelude.{◌≡◌, ◌+◌, ◌*◌, ◌≤◌, length, drop};
ghost use Rattle.catalogue_rules.specs.Field.{fields_of};
ghost use Rattle.catalogue_rules.specs.Reading.{addresses_of};
ghost use Rattle.catalogue_rules.specs.Archive.{moved_out};
ghost use Rattle.catalogue_rules.specs.Put.{put_at};
ghost use Rattle.catalogue_row.specs.Row.{Images, of_field};

use catalogue_rules::{ADDRESS, Span};

// Puts a card's latest image where a field is its address, and answers the place behind it.
fn passed(file: &[u8], tag: u8, next: usize, out: &mut [u8], to: usize) -> usize
    requires { (Images (fields_of (drop next file.now))) × (tag ≡ 1 → to + 128 ≤ length out.old) }
    ensures { (result ≡ to + length (of_field tag (fields_of (drop next file.now)))) × (out.new ≡ put_at out.old to (of_field tag (fields_of (drop next file.now)))) }
{
    if tag != ADDRESS {
        return to;
    }
    let Ok(Span { start, len }) = catalogue_lookup::newest(file, next) else {
        return to;
    };
    catalogue_put::bytes(out, to, catalogue_lookup::part(file, start, len))
}

// The latest image of each card, in the file's order. Answers how many bytes were put.
pub fn row(file: &[u8], out: &mut [u8]) -> usize
    requires { (Images (fields_of file.now)) × (128 * length (addresses_of (fields_of file.now)) ≤ length out.old) }
    ensures { (result ≡ length (moved_out (fields_of file.now))) × (out.new ≡ put_at out.old 0 (moved_out (fields_of file.now))) }
{
    let mut at = 0;
    let mut to = 0;
    while let Some(f) = catalogue_read::field_at(file, at) {
        at = f.start + f.len;
        to = passed(file, f.tag, at, out, to);
    }
    to
}
