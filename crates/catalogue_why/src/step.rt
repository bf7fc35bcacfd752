// A field at a time, with the place behind it.
ghost use Rattle.std.specs.Prelude.{◌<◌, ◌≤◌, length, IfSome};

use catalogue_rules::Found;

// A field, and the place behind it.
#[derive(Clone, Copy)]
pub struct Step {
    pub field: Found,
    pub next: usize,
}

// The field at a place; none where the file ends first.
pub fn at(file: &[u8], at: usize) -> Option<Step>
    ensures { IfSome result (λ step. (at < step.next) × (step.next ≤ length file.now)) }
{
    let field = catalogue_read::field_at(file, at)?;
    Some(Step {
        field,
        next: field.start + field.len,
    })
}
