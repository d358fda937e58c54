// Demand 3 on the exported changes, as one theorem, and no code: see proofs/ExportedDemand3.antt.
#![tactic(auto)]
