// The two forms of the line.
ghost use Rattle.std.specs.Prelude.{◌≡◌, ◌+◌, ◌≤◌};
ghost use Rattle.image_rules.specs.Line.{Says, ok_line, refused_line};
ghost use Rattle.image_rules.specs.Put.{with_hex};

use image_rules::{Node, Text};

// `image ok ` and the three words.
pub fn ok_line(node: Node) -> Text
    ensures { Says (ok_line node.node0 node.node1 node.node2) result.len result.bytes }
{
    let blank = *b"image ok ............\n";
    let one = with_hex(blank, 9, node.node0);
    let two = with_hex(one, 13, node.node1);
    let three = with_hex(two, 17, node.node2);
    Text {
        bytes: three,
        len: 22,
    }
}

// `image refused ` and a number below 100.
pub fn refused_line(n: u8) -> Text
    ensures { Says (refused_line n) result.len result.bytes }
{
    if n < 10 {
        let mut short = *b"image refused .\n......";
        short[14] = b'0' + n;
        return Text {
            bytes: short,
            len: 16,
        };
    }
    let mut long = *b"image refused ..\n.....";
    long[14] = b'0' + n / 10;
    long[15] = b'0' + n % 10;
    Text {
        bytes: long,
        len: 17,
    }
}

// The text with the four hex digits of a word put in from a place on.
#[tactic(auto, unfolding(bench_rules::specs::Text::digit_of))]
fn with_hex(mut text: [u8; 22], at: usize, word: u16) -> [u8; 22]
    requires { at + 4 ≤ 22 }
    ensures { result ≡ with_hex text at word }
{
    text[at] = hex_text::digit(word / 4096);
    text[at + 1] = hex_text::digit(word / 256 % 16);
    text[at + 2] = hex_text::digit(word / 16 % 16);
    text[at + 3] = hex_text::digit(word % 16);
    text
}
