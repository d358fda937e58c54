// Laws for proofs by hand over slices of structs, and no code: see proofs/.
#![tactic(auto)]
