// The images of an archive, moved into a lent area.
ghost use Rattle.std.specs.Prelude.{◌≡◌, ◌+◌, ◌*◌, ◌≤◌, length};
ghost use Rattle.catalogue_rules.specs.Reading.{file_of};
ghost use Rattle.catalogue_rules.specs.Archive.{moved_in};
ghost use Rattle.catalogue_rules.specs.Put.{put_at};

// Each image as version 1 of its card, and the count of fields. Answers how many bytes were put.
pub fn cards(images: &[[u8; 128]], out: &mut [u8]) -> usize
    requires { (length images.now ≤ 64) × (145 * length images.now + 5 ≤ length out.old) }
    ensures { (result ≡ length (file_of (moved_in images.now))) × (out.new ≡ put_at out.old 0 (file_of (moved_in images.now))) }
{
    let mut to = 0;
    for image in images {
        to = catalogue_put::card(out, to, image);
    }
    catalogue_put::count(out, to, 3 * images.len())
}
