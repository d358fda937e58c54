// History text, one line applied: to a pool by value, and to an opened pool. Any bytes and any history get an
// answer; a refused line leaves the history as it was.
// Offered, by `history`: `History`, `LineResult`, `apply`. Internal, for `history`: a line on an opened pool.
#![tactic(auto)]

mod advancing;
mod applying;

pub use advancing::{Step, advance};
pub use applying::{History, LineResult, apply};
