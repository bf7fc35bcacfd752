#![tactic(auto)]
// Dropping the oldest version of a card: the new file is written whole into another lent area, and the old one stays as it is.
ghost use Rattle.std.specs.Prelude.{◌≡◌, ◌≤◌, length};
ghost use Rattle.catalogue_rules.specs.PutContracts.{Drops};
ghost use Rattle.catalogue_drop.specs.Around.{around, begins, new_file, InOrder, Behind};

use refusal::Refusal;

// Drops a card's oldest version; a card leaves with its last. The unknown fields stay. 12, 15, 16, 17, 18, 19.
pub fn drop_oldest(file: &[u8], address: u64, out: &mut [u8]) -> Result<usize, Refusal>
    ensures { Drops file.now address result out.old out.new }
{
    if out.len() < file.len() {
        return Err(Refusal::ArgumentOutside);
    }
    let counts = catalogue_read::parse(file)?;
    let at = catalogue_put::card_place(file, address).ok_or(Refusal::NoSuchCard)?;
    if 64 < counts.cards {
        return Err(Refusal::NoPlace);
    }
    if catalogue_read::twice(file) {
        return Err(Refusal::ListedTwice);
    }
    Ok(drop_behind(file, at, counts.fields, out))
}

// The same for the card whose fields begin at a place, in a file with so many fields before the count.
// Answers how many bytes the new file has.
fn drop_behind(file: &[u8], at: usize, fields: usize, out: &mut [u8]) -> usize
    requires { Behind file.now at fields × (length file.now ≤ length out.old) }
    ensures { (result ≡ length (new_file file.now at fields)) × (out.new ≡ begins (new_file file.now at fields) out.old) }
{
    let number = catalogue_put::field_place(file, at, 2);
    let image = catalogue_put::field_place(file, number, 3);
    if catalogue_put::versions(file, at) < 2 {
        return copy_around(file, at - 9, at, number, image, fields - 3, out);
    }
    copy_around(file, at, at, number, image, fields - 2, out)
}

// Copies the bytes that stay, with a new count behind them, and answers how many there are.
// Its places stay parameters: each is used once here, so that a struct of them would only say each name twice more.
fn copy_around(
    file: &[u8],
    kept: usize,
    at: usize,
    number: usize,
    image: usize,
    left: usize,
    out: &mut [u8],
) -> usize
    requires { InOrder file.now kept at number image left × (length file.now ≤ length out.old) }
    ensures { (result ≡ length (around file.now kept at number image left)) × (out.new ≡ begins (around file.now kept at number image left) out.old) }
{
    let end = file.len() - 5;
    let one = catalogue_put::bytes(out, 0, &file[..kept]);
    let two = catalogue_put::bytes(out, one, &file[at..number]);
    let three = catalogue_put::bytes(out, two, &file[number + 5..image]);
    let four = catalogue_put::bytes(out, three, &file[image + 131..end]);
    catalogue_put::count(out, four, left)
}
