#![tactic(auto)]
// Demand 2: what the wire brings is what the host reads.
// Here the statements and their proofs; `promises` bears them, so that the verdict prints their names.
