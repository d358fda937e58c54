// The struct Pool. Offered: a fresh pool. Internal: an opened pool closed. Knows nothing of text.
#![tactic(auto)]

use slicing::{MAX_DEVICES, MAX_INTERVALS};

mod closing;
mod making;

pub use closing::close;
pub use making::fresh;

// A pool by value. Places from `devices` on, and from `intervals` on, are 0.
#[derive(Clone, Copy)]
pub struct Pool {
    pub range: u64,
    pub limit: u32,
    pub devices: usize,
    pub ids: [u16; MAX_DEVICES],
    pub capacities: [u32; MAX_DEVICES],
    pub intervals: usize,
    pub starts: [u32; MAX_INTERVALS],
    pub owners: [u16; MAX_INTERVALS],
}

// The answer of a call that makes a pool: the refusal number or 0, and a pool in either case. Document 01: 'a refused call
// that makes a pool gives a fresh one with R = 1 and M = 1', so a Result would lose a value.
#[derive(Clone, Copy)]
pub struct PoolAnswer {
    pub refusal: u32,
    pub pool: Pool,
}
