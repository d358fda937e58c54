// Lines of history text. Any bytes get an answer. Knows nothing of pools.
// Offered: `line`, and `capacity` of `history_numbers`. Internal, for `history`: the line of a text from a place on.
#![tactic(auto)]

mod lines;

pub use history_numbers::capacity;
pub use lines::{HistoryLine, Part, line, part_at};
