#![tactic(auto)]
// The promises of the search and of the activation: their statements and proofs. `promises` bears them, so that the verdict prints their names.
