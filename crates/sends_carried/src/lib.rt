#![tactic(auto)]
// Demand 2, its first half: what the host writes is what goes on the wire.
// Here the statements and their proofs; `promises` bears them, so that the verdict prints their names.
