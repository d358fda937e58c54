// A message: its padding, its blocks, and the hash value after the last of them.
ghost use Rattle.std.specs.Prelude.{◌≡◌, ◌+◌, ◌*◌, ◌/◌, ◌^◌, ◌<◌, ◌≤◌, length, get_or};
ghost use Rattle.sha1_blocks.specs.Fips180.{pad, N, word, block};
ghost use Rattle.sha1_blocks.specs.Fips180 as Fips;
ghost use Rattle.sha1_digest.specs.Promises.{limit};

use sha1_blocks::{Hash, compress};

// The most bytes that are hashed.
pub const LIMIT: usize = 65536;

// The number of blocks of a message of n bytes: it, a byte, eight for its length, and whole blocks.
fn blocks(n: usize) -> usize
    requires { n ≤ limit }
    ensures { result ≡ (n + 72) / 64 }
{
    (n + 72) / 64
}

// Byte `at` of the padded message.
fn padded_byte(message: &[u8], at: usize) -> u8
    requires { (length message.now ≤ limit) × (at < length (pad message.now)) }
    ensures { result ≡ get_or (pad message.now) at 0 }
{
    let n = message.len();
    if at < n {
        return message[at];
    }
    if at == n {
        return 0x80;
    }
    let field = 64 * blocks(n) - 8;
    if at < field {
        return 0;
    }
    (8 * n).to_be_bytes()[at - field]
}

// The word of the padded message whose first byte is byte `at`.
fn padded_word(message: &[u8], at: usize) -> u32
    requires { (length message.now ≤ limit) × (at + 4 ≤ length (pad message.now)) }
    ensures { result ≡ word (pad message.now) at }
{
    if at + 4 <= message.len() {
        return u32::from_be_bytes([
            message[at],
            message[at + 1],
            message[at + 2],
            message[at + 3],
        ]);
    }
    u32::from_be_bytes([
        padded_byte(message, at),
        padded_byte(message, at + 1),
        padded_byte(message, at + 2),
        padded_byte(message, at + 3),
    ])
}

// The sixteen words of block i, counted from 0.
fn load(message: &[u8], i: usize) -> [u32; 16]
    requires { (length message.now ≤ limit) × (64 * i + 64 ≤ length (pad message.now)) }
    ensures { result ≡ block (pad message.now) i }
{
    let mut m = [0u32; 16];
    for t in 0..16 {
        m[t] = padded_word(message, 64 * i + 4 * t);
    }
    m
}

// The hash value after the last block.
pub fn hash(message: &[u8]) -> Hash
    requires { length message.now ≤ limit }
    ensures { result ≡ Fips.H (pad message.now) (N message.now) }
{
    let mut h = Hash::new();
    for i in 0..blocks(message.len()) {
        h = compress(h, &load(message, i));
    }
    h
}
