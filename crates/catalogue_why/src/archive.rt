// Which images of an archive, a row of 128 bytes each, are wrong. Images are counted from 1.

// The first image that the check refuses by this number.
pub fn unsound(archive: &[u8], number: u8) -> Option<usize> {
    let before = archive.chunks_exact(128).position(|image| image_check::check(image).is_err_and(
        |why| refusal::number(why) == number,
    ))?;
    Some(before + 1)
}

// Two images with one address.
#[derive(Clone, Copy)]
pub struct Pair {
    pub first: usize,
    pub second: usize,
}

// The first image whose address came before, and the one that it came with.
pub fn twins(archive: &[u8]) -> Option<Pair> {
    for (i, image) in archive.chunks_exact(128).enumerate() {
        let address = catalogue_add::address_of(image);
        let before = archive
            .chunks_exact(128)
            .take(i)
            .position(|other| catalogue_add::address_of(other) == address);
        if let Some(before) = before {
            return Some(Pair {
                first: before + 1,
                second: i + 1,
            });
        }
    }
    None
}
