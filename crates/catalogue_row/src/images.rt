// The images of an archive, looked at before anything is written.
ghost use Rattle.std.specs.Prelude.{◌≡◌, eqb};
ghost use Rattle.std.specs.List.{list_any};
ghost use Rattle.image_rules.specs.Image.{check_of};
ghost use Rattle.catalogue_rules.specs.Turns.{address_of};
ghost use Rattle.catalogue_rules.specs.Reading.{any_twice};
ghost use Rattle.catalogue_rules.specs.Archive.{address_in, addresses_in};
ghost use Rattle.catalogue_rules.specs.Edit.{is_for};

use image_rules::Node;
use refusal::Refusal;

// Whether one of the images has the address.
fn listed(images: &[[u8; 128]], address: u64) -> bool
    ensures { result ≡ list_any (λ image. eqb (address_of (address_in image)) address) images.now }
{
    images
        .iter()
        .any(|image| catalogue_add::address_of(image) == address)
}

// Whether two images have one address.
pub fn any_twice(images: &[[u8; 128]]) -> bool
    ensures { result ≡ any_twice (addresses_in images.now) }
{
    let mut left = images;
    while let Some((image, rest)) = left.split_first() {
        if listed(rest, catalogue_add::address_of(image)) {
            return true;
        }
        left = rest;
    }
    false
}

// Whether an image was refused for this reason.
fn is_for(found: Result<Node, Refusal>, why: Refusal) -> bool
    ensures { result ≡ is_for why found }
{
    match found {
        Err(other) => other == why,
        Ok(_) => false,
    }
}

// Whether one of the images is refused for this reason.
pub fn any_for(images: &[[u8; 128]], why: Refusal) -> bool
    ensures { result ≡ list_any (λ image. is_for why (check_of image)) images.now }
{
    images
        .iter()
        .any(|image| is_for(image_check::check(image), why))
}
