#![tactic(auto)]
// A line of a bench script: what it asks for. The definition of the language is `bench_rules/specs/Script.antt`.
ghost use Rattle.std.specs.Prelude.{length};
ghost use Rattle.bench_rules.specs.Script.{Means};

use bench_rules::{Kind, Line};

mod names;
mod operands;
mod words;

// What a line asks for. The bytes that it spells are put at the front of `bytes`.
pub fn parse(line: &[u8], bytes: &mut [u8]) -> Line
    ensures { Means line.now (length bytes.old) result bytes.new }
{
    let first = words::begun(line);
    if first.is_empty() {
        return operands::bare(Kind::Nothing);
    }
    let one = words::next(first);
    let two = words::next(one);
    let three = words::next(two);
    let more = words::next(three);
    let kind = names::kind(names::key(words::word(first)));
    let count = operands::count(one.len(), two.len(), three.len(), more.len());
    operands::line(
        kind,
        count,
        words::word(one),
        words::word(two),
        words::word(three),
        bytes,
    )
    .unwrap_or(operands::bare(Kind::Unknown))
}
