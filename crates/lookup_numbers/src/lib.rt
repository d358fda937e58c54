// What lookups answer, as numbers in lent places: an owner, copies in a row of ten, counters in a tally of two.
// Internal: the lookups on images and on opened pools stand on it.
#![tactic(auto)]

mod copies;
mod owners;

pub use copies::{counters_of, put_counters, put_refusal, put_row};
pub use owners::put_owner;

// The numbers of a row of copies: the refusal number or 0, eight owners, the probes.
pub const ROW: usize = 10;
