// The file's own refusals 18 and 19, which come behind 17.
ghost use Rattle.std.specs.Prelude.{◌≡◌};
ghost use Rattle.catalogue_rules.specs.LookupWalk.{found_in, main_in};

use catalogue_read::twice;
use catalogue_rules::{Hit, Span};
use refusal::Refusal;

// A place in a file that has so many cards, unless it has more than 64 or lists one twice.
#[tactic(auto, using(catalogue_rules::proofs::Ways::way_none, catalogue_rules::proofs::Ways::way_crowded, catalogue_rules::proofs::Ways::way_twice, catalogue_rules::proofs::Ways::way_found))]
pub fn found_in(file: &[u8], cards: usize, found: Result<Span, Refusal>) -> Result<Span, Refusal>
    ensures { result ≡ found_in cards file.now found }
{
    let place = found?;
    if 64 < cards {
        return Err(Refusal::NoPlace);
    }
    if twice(file) {
        return Err(Refusal::ListedTwice);
    }
    Ok(place)
}

// A place in the main file, beside an override that lacks the card; neither may have more than 64 cards or list one twice.
#[tactic(auto, using(catalogue_rules::proofs::Ways::way_none, catalogue_rules::proofs::Ways::way_crowded, catalogue_rules::proofs::Ways::way_twice, catalogue_rules::proofs::Ways::way_found, catalogue_rules::proofs::Ways::both_room))]
pub fn in_main(
    own: &[u8],
    cards: usize,
    main: &[u8],
    others: usize,
    found: Result<Span, Refusal>,
) -> Result<Hit, Refusal>
    ensures { result ≡ main_in cards others own.now main.now found }
{
    let place = found?;
    if 64 < cards || 64 < others {
        Err(Refusal::NoPlace)
    } else if twice(own) || twice(main) {
        Err(Refusal::ListedTwice)
    } else {
        Ok(Hit::InMain(place))
    }
}
