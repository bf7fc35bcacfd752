#![tactic(auto)]
// Nothing else fits the contracts of the catalogue's calls, and each refusal comes exactly when the request says.
// Here the statements and their proofs; `catalogue_promises` bears them, so that the verdict prints their names.
