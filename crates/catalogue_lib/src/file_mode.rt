// The mode of an open file, for a new file that is to have the same.
ghost use Rattle.std.specs.Prelude.{◌≡◌, true};
ghost use Rattle.catalogue_lib.specs.Mode.{is_mode};

use std::fs::File;
use std::os::unix::fs::MetadataExt;

// The mode of an open file, its twelve lowest bits: the file's kind stands above them. None where the system does not tell.
pub fn mode_of(file: &File) -> Option<u32>
    ensures { is_mode result ≡ true }
{
    let told = file.metadata().ok()?;
    Some(told.mode() % 4096)
}
