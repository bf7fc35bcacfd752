// Text to numbers.
ghost use Rattle.std.specs.Prelude.{◌≡◌, ◌+◌, ◌*◌, ◌≤◌, ◌<◌, length, IfSome};
ghost use Rattle.bench_rules.specs.Text.{none, below, value_of, valued, number_of, Paired};

// The value of a digit, 0 to 15; none for a character that is no digit.
#[tactic(auto, unfolding(bench_rules::specs::Text::value_of))]
fn value(b: u8) -> Option<u8>
    ensures is { result ≡ below 16 (value_of b) }
    ensures digit { IfSome result (λ d. d < 16) }
{
    match b {
        b'0'..=b'9' => Some(b - b'0'),
        b'A'..=b'F' => Some(b - b'A' + 10),
        b'a'..=b'f' => Some(b - b'a' + 10),
        _ => None,
    }
}

// One digit more; none for a character that is no digit of the base, and for 65,536 or more.
#[tactic(auto, unfolding(bench_rules::specs::Text::valued))]
fn more(base: u32, before: u16, b: u8) -> Option<u16>
    requires { base ≤ 16 }
    ensures { result ≡ below none (valued base before b) }
{
    let d = u32::from(value(b)?);
    if d >= base {
        return None;
    }
    u16::try_from(u32::from(before) * base + d).ok()
}

// The number that a word spells in base 10 or 16; none if it spells none below 65,536.
#[tactic(auto, unfolding(bench_rules::specs::Text::number_of))]
pub fn number(word: &[u8], base: u32) -> Option<u16>
    ensures { result ≡ below none (number_of base word.now) }
{
    if word.is_empty() || base > 16 {
        return None;
    }
    let mut n: u16 = 0;
    for b in word {
        n = more(base, n, *b)?;
    }
    Some(n)
}

// The bytes that a word spells, two digits each, into the front of `out`: how many.
pub fn pairs(word: &[u8], out: &mut [u8]) -> Option<usize>
    ensures { Paired word.now (length out.old) result out.new }
{
    let n = word.len() / 2;
    if word.len() % 2 != 0 || n > out.len() {
        return None;
    }
    for i in 0..n {
        out[i] = value(word[2 * i])? * 16 + value(word[2 * i + 1])?;
    }
    Some(n)
}
