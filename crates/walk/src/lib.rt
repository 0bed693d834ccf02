// Where a walk stands in words that pass the check (specs/), and what it finds there and ahead (proofs/). No code: the walks by rank and by key
// cite both.
#![tactic(auto)]
