// The line that tells what the check of an EEPROM image found.
ghost use Rattle.image_rules.specs.ImageContracts as contract;

use crate::forms::{ok_line, refused_line};
use image_rules::{Node, Text};
use refusal::Refusal;

// The line for an image of any length.
pub fn judged(image: &[u8]) -> Text
    ensures { contract.Judged image.now result }
{
    line(crate::check(image))
}

// The line for what a check found.
pub fn line(found: Result<Node, Refusal>) -> Text
    ensures { contract.Line found result }
{
    match found {
        Ok(node) => ok_line(node),
        Err(why) => refused_line(refusal::number(why)),
    }
}
