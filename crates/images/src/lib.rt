// The offered calls on images: a pool from the bytes of an image, and the image of a pool. Any bytes,
// any pool and any buffer get an answer; a refusal leaves the buffer as it was. Internal: `read_open`, which
// leaves the pool opened, and `store`, for a pool that is known to be valid.
#![tactic(auto)]

mod reader;
mod writer;

pub use reader::{ReadPool, read, read_open};
pub use writer::{store, write};
