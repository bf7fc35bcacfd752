#![tactic(auto)]
// Demand 3: a damaged frame leaves no trace.
// Here the statements and their proofs; `promises` bears them, so that the verdict prints their names.
