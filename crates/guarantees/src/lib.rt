// Each offered call's outcomes in plain terms, and no code: see proofs/.
#![tactic(auto)]
