// The numbers in the bytes of an image, and its head. Internal: `image_bytes` and `images` stand on it.
#![tactic(auto)]

pub mod head;
pub mod numbers;

// The mark RSL, as a number in three bytes.
pub const MARK: u64 = 0x52534c;

pub const VERSION: u64 = 2;

// The bytes before the device rows.
pub const HEAD: usize = 19;

// The bytes of a row.
pub const ROW: usize = 6;
