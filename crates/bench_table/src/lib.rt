#![tactic(auto)]
// The bench table of document 01, as a single theorem.
// Here the statements and their proofs; `promises` bears them, so that the verdict prints their names.
