#![tactic(auto)]
// Nothing else fits: the contract of each public call determines its answer and the end of everything it is handed.
// Here the statements and their proofs; `promises` bears them, so that the verdict prints their names.
