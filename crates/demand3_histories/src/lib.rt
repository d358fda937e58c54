// Demand 3 of every history text, and no code: see specs/ and proofs/.
#![tactic(auto)]
