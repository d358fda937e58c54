// Lookups in the pool that an image describes: any bytes, numbers and buffers get an answer. An image that was
// read gives a valid pool, so the lookups are those that decide nothing again.
#![tactic(auto)]

mod copying;
mod owning;

pub use copying::{copies, copies_of_many};
pub use owning::owner;
