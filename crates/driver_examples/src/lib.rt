#![tactic(auto)]
// The driver's lines of document 01's bench table and each of its refusals, computed on the definitions.
// Here the statements and their proofs; `promises` bears them, so that the verdict prints their names.
