#![tactic(auto)]
// What a change writes is read as the changed catalogue, and what the lookups show behind it.
