// One block of SHA-1 of FIPS 180-4: the hash value, and `compress`, the hash value after one block more. Internal.
#![tactic(auto)]

ghost use Rattle.std.specs.Prelude.{◌≡◌};
ghost use Rattle.sha1_blocks.specs.Fips180 as Fips;

mod constants;
mod functions;
mod steps;

pub use steps::compress;

// A hash value: the words H_0 to H_4.
#[derive(Clone, Copy)]
pub struct Hash {
    pub h0: u32,
    pub h1: u32,
    pub h2: u32,
    pub h3: u32,
    pub h4: u32,
}

impl Hash {
    // The five starting words of section 5.3.1.
    const INITIAL: [u32; 5] = [0x67452301, 0xefcdab89, 0x98badcfe, 0x10325476, 0xc3d2e1f0];

    // A fresh hash holds the starting words.
    pub fn new() -> Self
        ensures { result ≡ Fips.initial }
    {
        let [h0, h1, h2, h3, h4] = Self::INITIAL;
        Self { h0, h1, h2, h3, h4 }
    }
}

// The working variables of a block's rounds.
#[derive(Clone, Copy)]
struct Variables {
    a: u32,
    b: u32,
    c: u32,
    d: u32,
    e: u32,
}
