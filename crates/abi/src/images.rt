// The check of an EEPROM image.
ghost use Rattle.std.specs.Prelude.{◌≡◌};
ghost use Rattle.image_rules.specs.Image.{check_of};
ghost use Rattle.codes.specs.Codes.{coded_check};

use codes::ImageChecked;

// Checks an image of any length.
#[unsafe(no_mangle)]
pub extern "C" fn seamtrout_image_checked(image: &[u8]) -> ImageChecked
    ensures { result ≡ coded_check (check_of image.now) }
{
    codes::coded_check(image_check::check(image))
}
