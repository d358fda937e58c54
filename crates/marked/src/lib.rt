// The examples that document 01 marks for proof, in one group: specs/Marked.antt has the statements, proofs/Marked.antt the proof. This crate has no code.
#![tactic(auto)]
