// One interval's cut, and rows of devices, on plain numbers. Internal: the six steps and opened pools stand
// on it. Each function has its own promise, an equation with a definition of `slicing`.
#![tactic(auto)]

pub mod cuts;
pub mod devices;
