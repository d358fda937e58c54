// Calls for programs in C and Rust: pointers, lengths and numbers alone. A pool is given by the bytes of
// its image, and a call that makes or changes one leaves the bytes of its image in a lent buffer, so
// that nothing is held between two calls. Each call returns 0 or a refusal number of document 01, and
// takes any numbers, any bytes and buffers of any length. Results stand in the first places of
// `answer`, zeros there on a refusal; where it has too few places the call is refused with 17 and
// nothing is written. Beside the answer a refused call writes nothing. For many lookups of one pool its
// image is opened: the pool's arrays then stand in memory of the caller's, and each lookup is given them.
#![tactic(auto)]

mod changes;
mod looking;
mod making;
mod rows;

pub use changes::{gorvyts_add, gorvyts_remove, gorvyts_resize};
pub use looking::{
    gorvyts_copies, gorvyts_copies_in, gorvyts_copies_of_many, gorvyts_open, gorvyts_owner,
    gorvyts_owner_in,
};
pub use making::{gorvyts_check, gorvyts_fresh, gorvyts_replay, gorvyts_transcript};
pub use rows::{
    gorvyts_devices, gorvyts_intervals, gorvyts_numbers, gorvyts_report, gorvyts_share,
};
