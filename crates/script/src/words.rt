// The words of a line. A blank is a space or a tab; a # starts a comment.
ghost use Rattle.std.specs.Prelude.{◌≡◌, ◌≤◌, length};
ghost use Rattle.bench_rules.specs.Script.{blank, reach_of, word_of, next_of, begun_of};

// Whether a character is a blank.
fn is_blank(b: u8) -> bool
    ensures { result ≡ blank b }
{
    b == b' ' || b == b'\t'
}

// How far it is to the first blank; to the end if there is none.
fn to_blank(s: &[u8]) -> usize
    ensures reach { result ≡ reach_of 0 s.now }
    ensures within { result ≤ length s.now }
{
    s.iter().position(|b| is_blank(*b)).unwrap_or(s.len())
}

// How far it is to the first character that is no blank; to the end if there is none.
fn to_letter(s: &[u8]) -> usize
    ensures reach { result ≡ reach_of 1 s.now }
    ensures within { result ≤ length s.now }
{
    s.iter().position(|b| !is_blank(*b)).unwrap_or(s.len())
}

// How far it is to the first #; to the end if there is none.
fn to_hash(s: &[u8]) -> usize
    ensures reach { result ≡ reach_of 2 s.now }
    ensures within { result ≤ length s.now }
{
    s.iter().position(|b| *b == b'#').unwrap_or(s.len())
}

// The word at the front.
pub fn word(s: &[u8]) -> &[u8]
    ensures { result.now ≡ word_of s.now }
{
    &s[..to_blank(s)]
}

// From the next word on.
pub fn next(s: &[u8]) -> &[u8]
    ensures { result.now ≡ next_of s.now }
{
    let rest = &s[to_blank(s)..];
    &rest[to_letter(rest)..]
}

// From the first word on, without the comment.
pub fn begun(s: &[u8]) -> &[u8]
    ensures { result.now ≡ begun_of s.now }
{
    let text = &s[..to_hash(s)];
    &text[to_letter(text)..]
}
