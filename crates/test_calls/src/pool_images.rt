// The image of a pool, stored and printed.
use crate::spelling;
use crate::words::MOST;
use pools::Pool;
use std::io;
use std::io::Write;
use test_text::within;

// Stores the image of a pool. Answers its length, 0 for a pool that no image gives.
pub fn stored(pool: Pool, buffer: &mut [u8]) -> usize {
    images::write(pool, buffer).unwrap_or(0)
}

// The image, `-` for a pool that no image gives.
pub fn print<W: Write>(out: &mut W, pool: Pool) -> io::Result<()> {
    let mut image = [0u8; MOST];
    let size = stored(pool, &mut image);
    let n = within(size, &image);
    spelling::bytes(out, &image[..n])
}

// The digest of the image.
pub fn print_digest<W: Write>(out: &mut W, pool: Pool) -> io::Result<()> {
    let mut image = [0u8; MOST];
    let size = stored(pool, &mut image);
    let n = within(size, &image);
    spelling::digest(out, &image[..n])
}

// Whether these bytes are the image of a pool.
pub fn is_image(pool: Pool, bytes: &[u8]) -> bool {
    let mut image = [0u8; MOST];
    let size = stored(pool, &mut image);
    let n = within(size, &image);
    &image[..n] == bytes
}
