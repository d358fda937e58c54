// What a plan of a change of an opened pool is, worked out with no list: one plan, of which a writer of moves, a
// pool and a history each take what they need. An opened pool is valid; nothing here decides that again.
#![tactic(auto)]

pub mod first;
pub mod labels;
pub mod settling;

use opened::Opened;
use slicing::MAX_DEVICES;

// A change worked out: the moved points, the number of moves, how many turns there are, the ids by which their
// rows are named, and the pool afterwards.
#[derive(Clone, Copy)]
pub struct Plan {
    pub moved: u64,
    pub count: usize,
    pub turns: usize,
    pub names: [u64; MAX_DEVICES],
    pub after: Opened,
}

// The rows that take part in a change, those before it and after it: their ids, what each has, what each
// is to have, and the row that goes, or 256.
#[derive(Clone, Copy)]
pub struct Rows {
    pub count: usize,
    pub gone: usize,
    pub names: [u64; MAX_DEVICES],
    pub has: [u64; MAX_DEVICES],
    pub due: [u64; MAX_DEVICES],
}
