// SHA-1 of FIPS 180-4 on 0 to 65,536 bytes. Offered: `digest`, for the bytes of a slice, and
// `first_word`, for twelve bytes given as numbers. The rest is internal.
#![tactic(auto)]

ghost use Rattle.std.specs.Prelude.{◌≡◌, ◌++◌, ◌/◌, get_or};
ghost use Rattle.sha1_blocks.specs.Fips180 as Fips;
ghost use Rattle.sha1_blocks.specs.Fips180.{bytes};
ghost use Rattle.sha1_digest.specs.Promises.{Digested, digest_reply};

use refusals::Refusal;
use sha1_blocks::{Hash, compress};

mod message;

// The digest of the bytes, five words. More than 65,536 bytes are refused with 2, and zeros where the answer is told as
// numbers (`digest_reply`).
pub fn digest(message: &[u8]) -> Result<[u32; 5], Refusal>
    ensures { Digested message.now result }
{
    if message.len() > message::LIMIT {
        return Err(Refusal::Outside);
    }
    let h = message::hash(message);
    Ok([h.h0, h.h1, h.h2, h.h3, h.h4])
}

// The number and the words of an answer, as document 01 has them: 0 and the digest, or the refusal number and zeros.
pub fn digest_reply(answer: Result<[u32; 5], Refusal>) -> (u32, [u32; 5])
    ensures { record { number = result.0; words = result.1 } ≡ digest_reply answer }
{
    match answer {
        Ok(words) => (0, words),
        Err(refusal) => (u32::from(refusal), [0; 5]),
    }
}

// The first word of the digest of twelve bytes: `high` in 8 and `low` in 4, highest byte first.
pub fn first_word(high: u64, low: u32) -> u32
    ensures { result ≡ get_or (Fips.digest (bytes 8 high ++ bytes 4 low)) 0 0 }
{
    let mut m = [0u32; 16];
    m[0] = (high >> 32) as u32;
    m[1] = (high % (1 << 32)) as u32;
    m[2] = low;
    m[3] = 0x80000000;
    m[15] = 96;
    let h = compress(Hash::new(), &m);
    h.h0
}
