#![tactic(auto)]
// What is promised of catalogues: the round trips, what a lookup shows, what a change leaves and writes, and how much area suffices.
ghost use Rattle.catalogue_rules.specs.RoundTrip.{WrittenIsRead, ReadIsWritten, AcceptedIsWellFormed};
ghost use Rattle.catalogue_rules.specs.Places.{PlacesShow};
ghost use Rattle.catalogue_rules.specs.Archive.{OutAfterIn};
ghost use Rattle.catalogue_rules.specs.Unknown.{UnknownFieldsStay};
ghost use Rattle.catalogue_kept.specs.Kept.{ChangesAreAccepted, WrittenIsTheChanged};
ghost use Rattle.catalogue_kept.specs.After.{WhatWasAddedIsTheLatest, ADropTakesTheOldest};
ghost use Rattle.catalogue_area.specs.Area.{AreaSuffices};
ghost use Rattle.catalogue_fits.specs.Fits.{NothingElseFits};

// Reading what was written gives the same catalogue.
pub fn written_is_read()
    ensures { WrittenIsRead }
{}

// An accepted file is written back byte for byte.
pub fn read_is_written()
    ensures { ReadIsWritten }
{}

// Only well-formed catalogues are accepted.
pub fn accepted_is_well_formed()
    ensures { AcceptedIsWellFormed }
{}

// Out after in gives the same bytes.
pub fn out_after_in()
    ensures { OutAfterIn }
{}

// A change leaves the unknown fields as they are, in their order.
pub fn unknown_fields_stay()
    ensures { UnknownFieldsStay }
{}

// The places that latest, given and lookup answer are those of the images: of that card's image, and the override's whenever it
// has the card.
pub fn places_show()
    ensures { PlacesShow }
{}

// Of catalogues as fields: what an addition or a drop writes is read as the changed catalogue.
pub fn changes_are_accepted()
    ensures { ChangesAreAccepted }
{}

// Of files: what an addition, a drop or an archive moved in writes is read as the changed catalogue, and as no other.
pub fn written_is_the_changed()
    ensures { WrittenIsTheChanged }
{}

// Of the calls: after an addition the image is its card's latest, older versions and all other cards show what they showed.
pub fn what_was_added_is_the_latest()
    ensures { WhatWasAddedIsTheLatest }
{}

// Of the calls: a drop takes the oldest version, a card with its last one, and nothing else.
pub fn a_drop_takes_the_oldest()
    ensures { ADropTakesTheOldest }
{}

// With 70,358 bytes, and as many more as the unknown fields take, no addition to a sound catalogue and no drop is refused 12; a full
// catalogue then answers 18.
pub fn area_suffices()
    ensures { AreaSuffices }
{}

// Of every call: two results that meet its contract are equal, a refused change touches no byte, and each refusal comes exactly
// when its test is the first to hold, in the order 12, 2, 15 to 19, 8 to 10.
pub fn nothing_else_fits()
    ensures { NothingElseFits }
{}
