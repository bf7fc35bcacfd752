// What the wire is told of a packet: its bytes, then zeros up to 60 unless bit 13 was set.
ghost use Rattle.std.specs.Prelude.{◌≡◌, cond, ◌++◌, ◌+◌, ◌-◌, ◌/◌, ◌%◌, ◌≤◌, length, drop, get_or, replicate};
ghost use Rattle.store.specs.Store.{part};
ghost use Rattle.bits.specs.Bits.{has};

// The n bytes told of a packet whose `len` bytes lie from `base` on.
pub fn tell_bytes(ram: &[u8], base: usize, len: usize, n: usize, out: &mut [u8])
    requires { (base + len ≤ length ram.now) × (len ≤ n) × (n ≤ length out.old) }
    ensures { out.new ≡ (part base len ram.now ++ replicate (n - len) 0) ++ drop n out.old }
{
    out[..len].copy_from_slice(&ram[base..base + len]);
    out[len..n].fill(0);
}

// How many bytes are told of the packet of a directory word.
pub fn told_length(w: u16) -> usize
    ensures { (result ≡ w % 2048 + cond (has 4 (w / 2048)) 0 (60 - w % 2048)) × (result ≤ 2048) }
{
    let len = (w % 2048) as usize;
    if bits::has(w / 2048, 4) {
        return len;
    }
    len.max(60)
}
