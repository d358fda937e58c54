// What the pool of an image is: its numbers, its devices with their shares, how even it is, its intervals. Any
// bytes and any places get an answer; a refused call leaves the rows as they were. The answer is a number, beside
// places filled in the caller's memory, and no Result: C gets it so.
#![tactic(auto)]

mod finding;
mod numbering;
mod rows;

pub use numbering::{numbers, report, share};
pub use rows::{devices, intervals};
