// Numbers and capacities of history text, and where a byte stands in it. Any bytes get an answer. Knows nothing of lines.
// Offered, by way of `history_lines`: `capacity`. The rest is internal.
#![tactic(auto)]

mod numbers;

pub use numbers::{capacity, find, number};
