#![tactic(auto)]
// Bits, bytes and words of numbers.
ghost use Rattle.std.specs.Prelude.{◌≡◌, ◌+◌, ◌*◌, ◌≤◌, ◌<◌};
ghost use Rattle.bits.specs.Bits.{has as has_of, weigh};

// A byte as a word.
pub fn wide(b: u8) -> u16
    ensures { (result ≡ b) × (result < 256) }
{
    u16::from(b)
}

// Two bytes as a word.
pub fn pair(high: u8, low: u8) -> u16
    ensures { result ≡ high * 256 + low }
{
    u16::from(high) * 256 + u16::from(low)
}

// The weight of a flag that is set.
pub fn weight_if(weight: u16, flag: bool) -> u16
    ensures { (result ≡ weigh weight flag) × (result ≤ weight) }
{
    if flag { weight } else { 0 }
}

// Whether the bit of a weight 1, 2, 4, .. is set in a word. By division and not by a mask: this holds at any weight above 0, as the clause says it.
pub fn has(word: u16, weight: u16) -> bool
    requires { 0 < weight }
    ensures { result ≡ has_of weight word }
{
    word / weight % 2 == 1
}
