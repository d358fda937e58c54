// The operations and functions on words: sections 3.2 and 4.1.1.
ghost use Rattle.std.specs.Prelude.{◌≡◌, ◌<◌, ◌≤◌};
ghost use Rattle.sha1_blocks.specs.Fips180.{ROTL, Ch, Parity, Maj, f};

// x rotated left by n places.
pub fn rotl(n: u32, x: u32) -> u32
    requires { (1 ≤ n) × (n < 32) }
    ensures { result ≡ ROTL n x }
{
    x.rotate_left(n)
}

pub fn ch(x: u32, y: u32, z: u32) -> u32
    ensures { result ≡ Ch x y z }
{
    (x & y) ^ (!x & z)
}

pub fn parity(x: u32, y: u32, z: u32) -> u32
    ensures { result ≡ Parity x y z }
{
    x ^ y ^ z
}

pub fn maj(x: u32, y: u32, z: u32) -> u32
    ensures { result ≡ Maj x y z }
{
    (x & y) ^ (x & z) ^ (y & z)
}

// The standard's f_t, by its name: a function of t, as there.
pub fn f(t: usize, x: u32, y: u32, z: u32) -> u32
    ensures { result ≡ f t x y z }
{
    if t < 20 {
        return ch(x, y, z);
    }
    if t < 40 {
        return parity(x, y, z);
    }
    if t < 60 {
        return maj(x, y, z);
    }
    parity(x, y, z)
}
