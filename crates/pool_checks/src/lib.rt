// The parts of a pool's validity decided: numbers and unused places; its table, as runs of the rows of their
// owners, against shares that are handed over. Internal: `valid_pools` stands on it.
#![tactic(auto)]

pub mod checking;
pub mod tables;
