// The fields of a file, taken in turn.
ghost use Rattle.std.specs.Prelude.{◌≡◌, ◌+◌, ◌≤◌, length, drop};
ghost use Rattle.catalogue_rules.specs.Field.{field, fields_of, left_of, value_at};
ghost use Rattle.catalogue_rules.specs.Turns.{after_address, after_number, after_image, after, may_end, is_damaged};
ghost use Rattle.catalogue_rules.specs.Reading.{reading, judged};
ghost use Rattle.catalogue_rules.specs.FileWalk.{closes};
ghost use Rattle.catalogue_rules.specs.declared.Turn.TheVariants.{Begun};

use crate::fields::{field_at, value_number};
use catalogue_rules::{ADDRESS, COUNT, Counts, Found, IMAGE, NUMBER, Turn};
use refusal::Refusal;

fn after_address(turn: Turn) -> Turn
    ensures { result ≡ after_address turn }
{
    match turn {
        Turn::Begun | Turn::Imaged { .. } => Turn::Addressed,
        _ => Turn::Damaged,
    }
}

// One of at most eight, above the one before.
fn after_number(turn: Turn, number: u16) -> Turn
    ensures { result ≡ after_number turn number }
{
    match turn {
        Turn::Addressed => Turn::Numbered { nth: 1, number },
        Turn::Imaged { nth, number: last } if nth < 8 && last < number => Turn::Numbered {
            nth: nth + 1,
            number,
        },
        _ => Turn::Damaged,
    }
}

fn after_image(turn: Turn) -> Turn
    ensures { result ≡ after_image turn }
{
    match turn {
        Turn::Numbered { nth, number } => Turn::Imaged { nth, number },
        _ => Turn::Damaged,
    }
}

// What may come behind a field.
#[tactic(auto, unfolding(catalogue_rules::specs::Turns::after))]
fn next_turn(turn: Turn, file: &[u8], f: Found) -> Turn
    requires { length (value_at file.now f) ≡ f.len }
    ensures { result ≡ after turn (field f.tag (value_at file.now f)) }
{
    match (f.tag, f.len) {
        (ADDRESS, 6) => after_address(turn),
        (NUMBER, 2) => after_number(turn, value_number(file, f.start, f.len)),
        (IMAGE, 128) => after_image(turn),
        (ADDRESS | NUMBER | IMAGE, _) => Turn::Damaged,
        _ => turn,
    }
}

fn may_end(turn: Turn) -> bool
    ensures { result ≡ may_end turn }
{
    matches!(turn, Turn::Begun | Turn::Imaged { .. })
}

fn is_damaged(turn: Turn) -> bool
    ensures { result ≡ is_damaged turn }
{
    matches!(turn, Turn::Damaged)
}

#[tactic(auto, using(catalogue_rules::proofs::Closes::misfit, catalogue_rules::proofs::Closes::miscounted, catalogue_rules::proofs::Closes::followed_at, catalogue_rules::proofs::Closes::closed_at, catalogue_rules::proofs::Closes::unended))]
// The count of fields, behind n fields with so many cards.
fn closing(turn: Turn, n: usize, cards: usize, file: &[u8], f: Found) -> Result<Counts, Refusal>
    requires { (f.start + f.len ≤ length file.now) × (length (value_at file.now f) ≡ f.len) }
    ensures { result ≡ closes turn n cards (field 4 (value_at file.now f)) (drop (f.start + f.len) file.now) }
{
    if may_end(turn)
        && f.len == 2
        && usize::from(value_number(file, f.start, f.len)) == n
        && f.start + f.len == file.len()
    {
        return Ok(Counts { cards, fields: n });
    }
    Err(Refusal::FieldDamaged)
}

// Every field in its turn, up to the count.
pub fn walk(file: &[u8]) -> Result<Counts, Refusal>
    ensures { result ≡ judged (reading Begun 0 (fields_of file.now) (left_of file.now)) }
{
    let mut turn = Turn::Begun;
    let mut at = 0;
    let mut n: usize = 0;
    let mut cards: usize = 0;
    while let Some(f) = field_at(file, at) {
        if f.tag == COUNT {
            return closing(turn, n, cards, file, f);
        }
        turn = next_turn(turn, file, f);
        if is_damaged(turn) {
            return Err(Refusal::FieldDamaged);
        }
        cards += usize::from(f.tag == ADDRESS);
        n += 1;
        at = f.start + f.len;
    }
    Err(Refusal::FileEndsEarly)
}
