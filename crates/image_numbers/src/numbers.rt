// Numbers in bytes, the highest byte first.
ghost use Rattle.std.specs.Prelude.{◌≡◌, ◌++◌, ◌+◌, ◌*◌, ◌≤◌, ◌<◌, ◌^◌, length, take, drop};
ghost use Rattle.sha1_blocks.specs.Fips180.{bytes};
ghost use Rattle.image_numbers.specs.Format.{number_at};

// The number in N bytes from place i on.
pub fn number<const N: usize>(image: &[u8], i: usize) -> u64
    requires { (N ≤ 8) × (i + N ≤ length image.now) }
    ensures { (result ≡ number_at image.now i N) × (result < 2 ^ (8 * N)) }
{
    let mut wide = [0; 8];
    wide[8 - N..].copy_from_slice(&image[i..i + N]);
    u64::from_be_bytes(wide)
}

// Stores a number in N bytes from place i on.
pub fn put<const N: usize>(buffer: &mut [u8], i: usize, x: u64)
    requires { (N ≤ 8) × (i + N ≤ length buffer.old) × (x < 2 ^ (8 * N)) }
    ensures { buffer.new ≡ take i buffer.old ++ bytes N x ++ drop (i + N) buffer.old }
{
    buffer[i..i + N].copy_from_slice(&x.to_be_bytes()[8 - N..]);
}
