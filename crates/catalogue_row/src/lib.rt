#![tactic(auto)]
// Moving today's archive, a row of bare images, into a catalogue, and writing it out again.
mod images;
mod latest;
mod moved;

ghost use Rattle.catalogue_rules.specs.PutContracts.{Imports, Exports};
ghost use Rattle.catalogue_row.specs.Back.{RowComesBack};

use refusal::Refusal;

// Moves an archive in: each image becomes version 1 of its card. 12, 2, 18, 19, then 8 to 10.
pub fn import(archive: &[u8], out: &mut [u8]) -> Result<usize, Refusal>
    ensures { Imports archive.now result out.old out.new }
{
    let (images, rest) = archive.as_chunks::<128>();
    let n = images.len();
    if out.len() / 145 < n {
        return Err(Refusal::ArgumentOutside);
    }
    if out.len() - 145 * n < 5 {
        return Err(Refusal::ArgumentOutside);
    }
    if !rest.is_empty() {
        return Err(Refusal::LengthOutside);
    }
    if 64 < n {
        return Err(Refusal::NoPlace);
    }
    if images::any_twice(images) {
        return Err(Refusal::ListedTwice);
    }
    // The table's order, and not that of the images.
    for why in [
        Refusal::MakerWrong,
        Refusal::ChecksumWrong,
        Refusal::SecondaryWrong,
    ] {
        if images::any_for(images, why) {
            return Err(why);
        }
    }
    Ok(moved::cards(images, out))
}

// Writes the latest image of each card, in the catalogue's order. 12, 15, 16, 18, 19.
pub fn export(file: &[u8], out: &mut [u8]) -> Result<usize, Refusal>
    ensures { Exports file.now result out.old out.new }
{
    if out.len() < 8192 {
        return Err(Refusal::ArgumentOutside);
    }
    catalogue_read::check(file)?;
    Ok(latest::row(file, out))
}

// An archive that is moved in comes back byte for byte. The theorem is the contract of a function that does nothing.
pub fn row_comes_back()
    ensures { RowComesBack }
{}
