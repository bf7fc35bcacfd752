#![tactic(auto)]
// Runs of the card and its driver, as definitions, the promise that every step keeps soundness, and the theorem that the least threshold moves no RX Early.
// Here the statements and their proofs; `promises` bears them, so that the verdict prints their names.
