// The changed file, written from the old one.
ghost use Rattle.std.specs.Prelude.{◌≡◌, [], ◌∷◌, ◌++◌, ◌+◌, ◌-◌, ◌<◌, ◌≤◌, length, take, drop};
ghost use Rattle.catalogue_rules.specs.Field.{field, bytes_of};
ghost use Rattle.catalogue_rules.specs.Reading.{count_field};
ghost use Rattle.catalogue_rules.specs.Archive.{address_in};
ghost use Rattle.catalogue_rules.specs.Edit.{version_fields};
ghost use Rattle.catalogue_rules.specs.Put.{put_at};

// A card with one version before the count of a file that has so many fields before it.
pub fn with_card(file: &[u8], fields: usize, image: &[u8; 128], out: &mut [u8]) -> usize
    requires in_bounds { (5 ≤ length file.now) × (length file.now + 145 ≤ length out.old) }
    requires counted { fields < 65533 }
    ensures { (result ≡ length file.now + 145) × (out.new ≡ put_at out.old 0 (take (length file.now - 5) file.now ++ (bytes_of (field 1 (address_in image.now) ∷ version_fields 1 image.now) ++ bytes_of (count_field (fields + 3) ∷ [])))) }
{
    let end = file.len() - 5;
    let one = catalogue_put::bytes(out, 0, &file[..end]);
    let two = catalogue_put::card(out, one, image);
    catalogue_put::count(out, two, fields + 3)
}

// A version at a place before the count.
pub fn with_version(
    file: &[u8],
    place: usize,
    number: u16,
    fields: usize,
    image: &[u8; 128],
    out: &mut [u8],
) -> usize
    requires place_in_bounds { (place + 5 ≤ length file.now) × (length file.now + 145 ≤ length out.old) }
    requires counted { fields < 65534 }
    ensures { (result ≡ length file.now + 136) × (out.new ≡ put_at out.old 0 (take place file.now ++ (bytes_of (version_fields number image.now) ++ (take (length file.now - 5 - place) (drop place file.now) ++ bytes_of (count_field (fields + 2) ∷ []))))) }
{
    let end = file.len() - 5;
    let one = catalogue_put::bytes(out, 0, &file[..place]);
    let two = catalogue_put::version(out, one, number, image);
    let three = catalogue_put::bytes(out, two, &file[place..end]);
    catalogue_put::count(out, three, fields + 2)
}
