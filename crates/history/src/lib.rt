// History text: the replay of its lines, the pool that it leaves, and what `slices` prints. Any bytes and
// any history get an answer; a refused line leaves the history as it was. Knows nothing of files.
// `capacity` and `line` are those of `history_lines`, `apply` is that of `history_steps`.
#![tactic(auto)]

mod last_pool;
mod transcripts;

pub use history_lines::{HistoryLine, capacity, line};
pub use history_steps::{History, LineResult, apply};
pub use last_pool::pool_after;
pub use transcripts::{ROOM, transcript};
