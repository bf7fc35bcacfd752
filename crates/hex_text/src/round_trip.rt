// What `hex` prints it reads back.
ghost use Rattle.hex_text.specs.RoundTrip.{RoundTrips};

// Bytes, a byte, a word, and a number in decimal: printed, then read.
pub fn what_is_printed_is_read_back()
    ensures { RoundTrips }
{}
