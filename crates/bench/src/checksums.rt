// A checksum of what calls answer, with one more number.
pub fn mix(x: u64, y: u64) -> u64 {
    ((x % 72057594037927936) * 251) ^ y
}
