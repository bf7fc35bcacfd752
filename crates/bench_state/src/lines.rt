// Parts of a line, and a line as far as it was read.
ghost use Rattle.std.specs.Prelude.{◌≡◌, ◌≤◌, take, IfSome};
ghost use Rattle.std.proofs.Props.{props};

// The first n characters, or all.
pub fn front(s: &[u8], n: usize) -> &[u8]
    ensures { result.now ≡ take n s.now }
{
    &s[..n.min(s.len())]
}

// A byte, 0 past the end.
pub fn byte_at(s: &[u8], i: usize) -> u8 {
    s.get(i).copied().unwrap_or(0)
}

// A line as far as it was read: there is room for 8,192 characters and a carriage return. Without a length it is too long.
#[derive(Clone, Copy)]
pub struct Gathered {
    room: [u8; 8193],
    len: Option<usize>,
    ghost inside: { IfSome len (λ n. n ≤ 8193) } by { Prim.hlevel props },
}

impl Gathered {
    // Nothing read yet.
    pub fn new() -> Gathered {
        Gathered {
            room: [0; 8193],
            len: Some(0),
        }
    }

    pub fn is_empty(&self) -> bool {
        self.len == Some(0)
    }

    // Characters, behind those that came before.
    pub fn push(&mut self, s: &[u8]) {
        let Some(n) = self.len else {
            return;
        };
        if s.len() > 8193 - n {
            self.len = None;
            return;
        }
        self.room[n..n + s.len()].copy_from_slice(s);
        self.len = Some(n + s.len());
    }

    // The whole line without a carriage return at its end; none if it is longer than 8,192.
    pub fn whole(&self) -> Option<&[u8]> {
        let all = &self.room[..self.len?];
        let line = all.strip_suffix(b"\r").unwrap_or(all);
        if line.len() > 8192 {
            return None;
        }
        Some(line)
    }

    // The next line begins.
    pub fn clear(&mut self) {
        self.len = Some(0);
    }
}
