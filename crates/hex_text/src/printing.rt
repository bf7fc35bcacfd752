// Numbers to text.
ghost use Rattle.std.specs.Prelude.{◌≡◌, ◌+◌, ◌*◌, ◌≤◌, ◌<◌, ◌++◌, [], length, take, List, ℕ};
ghost use Rattle.bench_rules.specs.Text.{digit_of, byte_text, word_text, bytes_text, places_text, decimal_text};

use std::marker::Model;

// A hex digit, upper case.
#[tactic(auto, unfolding(bench_rules::specs::Text::digit_of))]
pub fn digit(d: u16) -> u8
    requires { d < 16 }
    ensures { result ≡ digit_of d }
{
    if d < 10 {
        return b'0' + d as u8;
    }
    b'A' + (d as u8 - 10)
}

// A text of up to 4,096 characters. A contract sees the characters that were put, in their order.
#[derive(Drop)]
pub struct Text {
    room: [u8; 4096],
    len: usize,
}

impl Model for Text {
    ghost Value = { List ℕ };

    ghost view = { λ t. take t.len t.room };

    ghost invariant = { λ t. t.len ≤ 4096 };
}

impl Text {
    // Nothing put yet.
    pub fn new() -> Text
        ensures { result ≡ [] }
    {
        Text {
            room: [0; 4096],
            len: 0,
        }
    }

    // What was put is gone: the next text begins.
    pub fn clear(&mut self)
        ensures { self.new ≡ [] }
    {
        self.len = 0;
    }

    // The characters.
    pub fn chars(&self) -> &[u8]
        ensures { result.now ≡ self.now }
    {
        &self.room[..self.len]
    }

    // Characters as they are.
    pub fn put(&mut self, s: &[u8])
        requires { length self.old + length s.now ≤ 4096 }
        ensures { self.new ≡ self.old ++ s.now }
    {
        let next = self.len + s.len();
        self.room[self.len..next].copy_from_slice(s);
        self.len = next;
    }

    // A byte as two digits.
    pub fn put_byte(&mut self, b: u8)
        requires { length self.old + 2 ≤ 4096 }
        ensures { self.new ≡ self.old ++ byte_text b }
    {
        self.put(&[digit(u16::from(b / 16)), digit(u16::from(b % 16))]);
    }

    // A word as four digits.
    pub fn put_word(&mut self, v: u16)
        requires { length self.old + 4 ≤ 4096 }
        ensures { self.new ≡ self.old ++ word_text v }
    {
        self.put_byte((v / 256) as u8);
        self.put_byte((v % 256) as u8);
    }

    // Bytes, two digits each.
    pub fn put_bytes(&mut self, s: &[u8])
        requires { length self.old + 2 * length s.now ≤ 4096 }
        ensures text { self.new ≡ self.old ++ bytes_text s.now }
        ensures long { length self.new ≡ length self.old + 2 * length s.now }
    {
        for b in s {
            self.put_byte(*b);
        }
    }

    // A number below 100,000 in decimal, with no zero in front.
    pub fn put_decimal(&mut self, n: u32)
        requires { length self.old + 5 ≤ 4096 }
        ensures text { self.new ≡ self.old ++ decimal_text n }
        ensures long { length self.new ≤ length self.old + 5 }
    {
        self.put_places(n, 5);
    }

    // At most k decimal digits of a number.
    fn put_places(&mut self, n: u32, k: usize)
        requires { length self.old + k ≤ 4096 }
        ensures text { self.new ≡ self.old ++ places_text k n }
        ensures long { length self.new ≤ length self.old + k }
    {
        if k == 0 {
            return;
        }
        if n < 10 {
            self.put(&[digit(n as u16)]);
            return;
        }
        self.put_places(n / 10, k - 1);
        self.put(&[digit((n % 10) as u16)]);
    }
}
