// The first word of a line. A word of up to eight characters is one number, its characters as bytes.
// Tried, and the proof did not close: `match word { b"power" => .. }` has 61 ends for `_`, and none tells a proof what the characters are not.
ghost use Rattle.std.specs.Prelude.{◌≡◌};
ghost use Rattle.bench_rules.specs.Script.{key_of, kind_of};

use bench_rules::Kind;

// The number of a word; 0 for one that is too long or begins with a zero.
pub fn key(word: &[u8]) -> u64
    ensures { result ≡ key_of word.now }
{
    if word.is_empty() || word[0] == 0 {
        return 0;
    }
    let mut n: u64 = 0;
    for b in word {
        if n >= 0x100000000000000 {
            return 0;
        }
        n = n * 256 + u64::from(*b);
    }
    n
}

// What a word's number asks for.
pub fn kind(key: u64) -> Kind
    ensures { result ≡ kind_of key }
{
    match key {
        0x706F776572 => Kind::Power, // power
        0x6A6F696E => Kind::Join, // join
        0x7277 => Kind::ReadWord, // rw
        0x7262 => Kind::ReadByte, // rb
        0x7777 => Kind::WriteWord, // ww
        0x7762 => Kind::WriteByte, // wb
        0x7374617274 => Kind::Start, // start
        0x6279746573 => Kind::Bytes, // bytes
        0x656E64 => Kind::End, // end
        0x73656E74 => Kind::Sent, // sent
        0x636F6C6C69646564 => Kind::Collided, // collided
        0x7278 => Kind::RxStatus, // rx
        0x696477 => Kind::IdWrite, // idw
        0x696472 => Kind::IdRead, // idr
        0x736561726368 => Kind::Search, // search
        0x6163746976617465 => Kind::Activate, // activate
        0x6F70656E => Kind::Open, // open
        0x73656E64 => Kind::Send, // send
        0x73657276696365 => Kind::Service, // service
        _ => Kind::Unknown,
    }
}
