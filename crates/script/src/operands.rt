// The operands of a line.
ghost use Rattle.std.specs.Prelude.{◌≡◌, ◌≤◌, length};
ghost use Rattle.bench_rules.specs.Text.{none, below};
ghost use Rattle.bench_rules.specs.Script.{line_of, or_unknown, counted_line, plain_line, operand_of, number_line, pair_line, triple_line, flag_of, flag_line, byte_line, operand_line, numbers_line, count_of, Spells};

use bench_rules::{Kind, Line};

// A line without operands.
pub fn bare(kind: Kind) -> Line
    ensures { result ≡ line_of kind 0 0 0 0 }
{
    Line {
        kind,
        a: 0,
        b: 0,
        c: 0,
        len: 0,
    }
}

// How many words follow the first: 4 for more than three.
#[tactic(auto, unfolding(bench_rules::specs::Script::count_of))]
pub fn count(one: usize, two: usize, three: usize, more: usize) -> usize
    ensures { result ≡ count_of one two three more }
{
    let lens = [one, two, three, more];
    lens.iter().position(|n| *n == 0).unwrap_or(4)
}

// No operand.
#[tactic(auto, unfolding(bench_rules::specs::Script::plain_line))]
fn plain(kind: Kind, count: usize) -> Option<Line>
    ensures { or_unknown result ≡ plain_line kind count }
{
    if count != 0 {
        return None;
    }
    Some(bare(kind))
}

// The number that a word spells, if it is at most `most`.
#[tactic(auto, unfolding(bench_rules::specs::Script::operand_of))]
fn operand(word: &[u8], base: u32, most: u16) -> Option<u16>
    ensures { result ≡ below none (operand_of base most word.now) }
{
    hex_text::number(word, base).filter(|n| *n <= most)
}

// A number in base 16 or 10.
#[tactic(auto, unfolding(bench_rules::specs::Script::number_line))]
fn one_number(kind: Kind, base: u32, count: usize, one: &[u8]) -> Option<Line>
    ensures { or_unknown result ≡ number_line kind base count one.now }
{
    if count != 1 {
        return None;
    }
    let a = operand(one, base, 65535)?;
    Some(Line { a, ..bare(kind) })
}

// Two numbers, the second at most `most`.
#[tactic(auto, unfolding(bench_rules::specs::Script::pair_line))]
fn two_numbers(kind: Kind, most: u16, count: usize, one: &[u8], two: &[u8]) -> Option<Line>
    ensures { or_unknown result ≡ pair_line kind most count one.now two.now }
{
    if count != 2 {
        return None;
    }
    let a = operand(one, 16, 65535)?;
    let b = operand(two, 16, most)?;
    Some(Line { a, b, ..bare(kind) })
}

// A number, and two in another base, each at most `most`.
#[tactic(auto, unfolding(bench_rules::specs::Script::triple_line))]
fn three_numbers(
    kind: Kind,
    base: u32,
    most: u16,
    count: usize,
    one: &[u8],
    two: &[u8],
    three: &[u8],
) -> Option<Line>
    ensures { or_unknown result ≡ triple_line kind base most count one.now two.now three.now }
{
    if count != 3 {
        return None;
    }
    let a = operand(one, 16, 65535)?;
    let b = operand(two, base, most)?;
    let c = operand(three, base, most)?;
    Some(Line {
        a,
        b,
        c,
        ..bare(kind)
    })
}

// A flag, 0 or 1.
#[tactic(auto, unfolding(bench_rules::specs::Script::flag_of))]
fn flag(b: u8) -> Option<u16>
    ensures { result ≡ below 2 (flag_of b) }
{
    match b {
        b'0' => Some(0),
        b'1' => Some(1),
        _ => None,
    }
}

// Two flags in one word.
#[tactic(auto, unfolding(bench_rules::specs::Script::flag_line))]
fn flags(count: usize, one: &[u8]) -> Option<Line>
    ensures { or_unknown result ≡ flag_line count one.now }
{
    if count != 1 || one.len() != 2 {
        return None;
    }
    let a = flag(one[0])?;
    let b = flag(one[1])?;
    Some(Line {
        a,
        b,
        ..bare(Kind::End)
    })
}

// A byte string, of as many bytes as `exact` says, or of any number.
fn byte_string(
    kind: Kind,
    exact: Option<usize>,
    count: usize,
    one: &[u8],
    bytes: &mut [u8],
) -> Option<Line>
    ensures { Spells (byte_line kind exact count (length bytes.old) one.now) one.now (length bytes.old) (or_unknown result) bytes.new }
{
    if count != 1 {
        return None;
    }
    counted(kind, exact, hex_text::pairs(one, bytes)?)
}

// A byte string of so many bytes, if that is right.
#[tactic(auto, unfolding(bench_rules::specs::Script::counted_line, bench_rules::specs::Script::exact_line))]
fn counted(kind: Kind, exact: Option<usize>, len: usize) -> Option<Line>
    ensures { or_unknown result ≡ counted_line kind exact len }
{
    match exact {
        Some(n) if n != len => None,
        _ => Some(Line { len, ..bare(kind) }),
    }
}

// What a line asks for, by its kind; none for one that is not understood.
pub fn line(
    kind: Kind,
    count: usize,
    one: &[u8],
    two: &[u8],
    three: &[u8],
    bytes: &mut [u8],
) -> Option<Line>
    ensures { Spells (operand_line kind count (length bytes.old) one.now two.now three.now) one.now (length bytes.old) (or_unknown result) bytes.new }
{
    match kind {
        Kind::Power | Kind::Join => byte_string(kind, Some(128), count, one, bytes),
        Kind::Start => byte_string(kind, Some(8), count, one, bytes),
        Kind::Bytes | Kind::Send => byte_string(kind, None, count, one, bytes),
        Kind::Nothing
        | Kind::Unknown
        | Kind::ReadWord
        | Kind::ReadByte
        | Kind::WriteWord
        | Kind::WriteByte
        | Kind::End
        | Kind::Sent
        | Kind::Collided
        | Kind::RxStatus
        | Kind::IdWrite
        | Kind::IdRead
        | Kind::Search
        | Kind::Activate
        | Kind::Open
        | Kind::Service => numbers(kind, count, one, two, three),
    }
}

// What a line without a byte string asks for.
#[tactic(auto, unfolding(bench_rules::specs::Script::numbers_line))]
fn numbers(kind: Kind, count: usize, one: &[u8], two: &[u8], three: &[u8]) -> Option<Line>
    ensures { or_unknown result ≡ numbers_line kind count one.now two.now three.now }
{
    match kind {
        Kind::Sent | Kind::Collided | Kind::RxStatus => plain(kind, count),
        Kind::ReadWord | Kind::ReadByte | Kind::IdRead | Kind::Search => {
            one_number(kind, 16, count, one)
        }
        Kind::Service => one_number(kind, 10, count, one),
        Kind::WriteWord => two_numbers(kind, 65535, count, one, two),
        Kind::WriteByte | Kind::IdWrite => two_numbers(kind, 255, count, one, two),
        Kind::Activate => three_numbers(kind, 10, 65535, count, one, two, three),
        Kind::Open => three_numbers(kind, 16, 65535, count, one, two, three),
        Kind::End => flags(count, one),
        Kind::Nothing
        | Kind::Unknown
        | Kind::Power
        | Kind::Join
        | Kind::Start
        | Kind::Bytes
        | Kind::Send => None,
    }
}
