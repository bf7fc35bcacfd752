#![tactic(auto)]
// What is promised of the public calls themselves: a refused call changes nothing (demand 1), and demand 3 over any calls.
