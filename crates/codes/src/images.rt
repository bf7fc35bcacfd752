// The answer of the image check in numbers.
ghost use Rattle.std.specs.Prelude.{◌≡◌};
ghost use Rattle.codes.specs.Codes.{coded_check};

use crate::code;
use image_rules::Node;
use refusal::Refusal;

// The node address, words 00h to 02h, and the code.
#[repr(C)]
#[derive(Clone, Copy)]
pub struct ImageChecked {
    pub node0: u16,
    pub node1: u16,
    pub node2: u16,
    pub code: u8,
}

pub fn coded_check(a: Result<Node, Refusal>) -> ImageChecked
    ensures { result ≡ coded_check a }
{
    let node = a.unwrap_or(Node {
        node0: 0,
        node1: 0,
        node2: 0,
    });
    ImageChecked {
        node0: node.node0,
        node1: node.node1,
        node2: node.node2,
        code: code(&a),
    }
}
