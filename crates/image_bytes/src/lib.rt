// The bytes of an image: its rows read and written, and a whole image written. Internal: the calls of
// `images` stand on it.
#![tactic(auto)]

pub mod rows;
pub mod writing;
