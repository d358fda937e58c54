// Lines and numbers for test programs: lines of a reader, numbers of one width as another, and numbers
// printed.
#![tactic(auto)]

mod lines;
mod printing;
mod widths;

pub use lines::{Input, PIECE, finished, read_line};
pub use printing::{end_line, first, hexadecimal, pair, space, spaced, spaced_list};
pub use widths::{least, magnitude, narrow8, narrow32, within};
