// A pool opened: its devices by row, what each has, its table as runs of rows. An opened pool is valid.
#![tactic(auto)]

use slicing::MAX_DEVICES;

pub mod devices;
pub mod making;

// A valid pool with its devices by row, by rising id: what each has, and how many intervals the table
// has. The table stands in an array of its own, a run being size × 65,536 + row.
#[derive(Clone, Copy)]
pub struct Opened {
    pub range: u64,
    pub limit: u64,
    pub devices: usize,
    pub ids: [u64; MAX_DEVICES],
    pub capacities: [u64; MAX_DEVICES],
    pub has: [u64; MAX_DEVICES],
    pub intervals: usize,
}
