// What the image check is good for: theorems over its definitions.
// Each is the contract of a function that does nothing, so that a check names it.
ghost use Rattle.image_check.specs.Noticed.{OneByteNoticed};

// The check notices a change of any single byte outside words 18h to 1Fh.
pub fn one_byte_noticed()
    ensures { OneByteNoticed }
{}
