// The forms of the lines. Each takes the place of what stood in the text.
ghost use Rattle.std.specs.Prelude.{◌≡◌, ◌+◌, ◌*◌, ◌≤◌, ◌++◌, length, take};
ghost use Rattle.bench_rules.specs.Answers.{labelled, word_line, byte_line, signed_text, rx_status_line, accesses_text, status_line, report_line, bytes_line, frame_line, seven_at_most, found_line, address_text, addresses_text, shortened};

use hex_text::Text;

// A line that is always the same, or how one begins.
pub fn fixed(text: &mut Text, s: &[u8])
    requires { length s.now ≤ 32 }
    ensures { text.new ≡ s.now }
{
    text.clear();
    text.put(s);
}

// A label and a number.
pub fn numbered(text: &mut Text, label: &[u8], n: u32)
    requires { length label.now ≤ 32 }
    ensures { text.new ≡ labelled label.now n }
{
    fixed(text, label);
    text.put_decimal(n);
    text.put(b"\n");
}

// = and four digits.
pub fn word(text: &mut Text, v: u16)
    ensures { text.new ≡ word_line v }
{
    fixed(text, b"= ");
    text.put_word(v);
    text.put(b"\n");
}

// = and two digits.
pub fn byte(text: &mut Text, v: u16)
    ensures { text.new ≡ byte_line v }
{
    fixed(text, b"= ");
    text.put_byte((v % 256) as u8);
    text.put(b"\n");
}

// A number in decimal, with a minus sign below 0.
fn put_signed(text: &mut Text, n: i16)
    requires { length text.old ≤ 4000 }
    ensures text { text.new ≡ text.old ++ signed_text n }
    ensures long { length text.new ≤ length text.old + 6 }
{
    if n < 0 {
        text.put(b"-");
    }
    text.put_decimal(u32::from(n.unsigned_abs()));
}

// RX Status, and the unread bytes.
pub fn rx_status(text: &mut Text, v: u16, n: i16)
    ensures { text.new ≡ rx_status_line v n }
{
    fixed(text, b"rx ");
    text.put_word(v);
    text.put(b" unread ");
    put_signed(text, n);
    text.put(b"\n");
}

// The accesses used, at the end of a line. A count has at most five digits.
fn put_accesses(text: &mut Text, used: usize)
    requires { length text.old ≤ 4000 }
    ensures { text.new ≡ text.old ++ accesses_text used }
{
    text.put(b" accesses ");
    text.put_decimal((used % 100000) as u32);
    text.put(b"\n");
}

// A status without a ticket.
pub fn status(text: &mut Text, s: u16, used: usize)
    ensures { text.new ≡ status_line s used }
{
    fixed(text, b"status ");
    text.put_byte((s % 256) as u8);
    put_accesses(text, used);
}

// A ticket and its status.
pub fn report(text: &mut Text, ticket: u16, s: u16, used: usize)
    ensures { text.new ≡ report_line ticket s used }
{
    fixed(text, b"report ");
    text.put_decimal(u32::from(ticket));
    text.put(b" ");
    text.put_byte((s % 256) as u8);
    put_accesses(text, used);
}

// At most 1,792 bytes are told.
pub fn part(bytes: &[u8]) -> &[u8]
    ensures { (result.now ≡ shortened bytes.now) × (length result.now ≤ 1792) }
{
    &bytes[..bytes.len().min(1792)]
}

// What the wire is told.
pub fn wire(text: &mut Text, bytes: &[u8])
    requires { length bytes.now ≤ 1792 }
    ensures { text.new ≡ bytes_line bytes.now }
{
    fixed(text, b"wire ");
    text.put_bytes(bytes);
    text.put(b"\n");
}

// A frame handed up, from the area that the label names.
pub fn frame(text: &mut Text, label: &[u8], bytes: &[u8], used: usize)
    requires label { length label.now ≤ 32 }
    requires bytes { length bytes.now ≤ 1792 }
    ensures { text.new ≡ frame_line label.now bytes.now used }
{
    fixed(text, label);
    text.put_bytes(bytes);
    put_accesses(text, used);
}

// A blank and an address.
fn put_address(text: &mut Text, a: u64)
    requires { length text.old ≤ 4000 }
    ensures text { text.new ≡ text.old ++ address_text a }
    ensures long { length text.new ≡ length text.old + 13 }
{
    text.put(b" ");
    text.put_word((a / 0x100000000 % 0x10000) as u16);
    text.put_word((a / 0x10000 % 0x10000) as u16);
    text.put_word((a % 0x10000) as u16);
}

// How many cards were found, the accesses used, and the addresses, seven at most.
pub fn found(text: &mut Text, m: usize, used: usize, found: [u64; 7])
    ensures { text.new ≡ found_line (seven_at_most m) used found }
{
    let n = m.min(7);
    fixed(text, b"found ");
    text.put_decimal(n as u32);
    text.put(b" accesses ");
    text.put_decimal((used % 100000) as u32);
    for i in 0..n {
        put_address(text, found[i]);
    }
    text.put(b"\n");
}
