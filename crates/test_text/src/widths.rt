// Numbers of one width as another, and numbers that count places of a list.
ghost use Rattle.std.specs.Prelude.{◌≡◌, ◌≤◌, nat_abs};
ghost use Rattle.test_text.specs.Counts.{IsPrefixLen};

// The number without its sign.
pub fn magnitude(x: i64) -> u64
    ensures { result ≡ nat_abs x }
{
    x.unsigned_abs()
}

// The number, or b where it is above b.
pub fn least(a: u64, b: usize) -> usize
    ensures { result ≤ b }
{
    a.min(b as u64) as usize
}

// The number, or the largest that fits.
pub fn narrow8(x: u64) -> u8 {
    u8::try_from(x).unwrap_or(u8::MAX)
}

pub fn narrow32(x: u64) -> u32 {
    u32::try_from(x).unwrap_or(u32::MAX)
}

// The number, or that of all places where it is above. The contract speaks of the list, so that a caller
// lends its first places without a proof file.
pub fn within(n: usize, bytes: &[u8]) -> usize
    ensures { IsPrefixLen result bytes.now }
{
    n.min(bytes.len())
}
