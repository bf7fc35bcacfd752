#![tactic(auto)]
// How much area always suffices for a change of a catalogue.
// Here the statements and their proofs; `catalogue_promises` bears them, so that the verdict prints their names.
