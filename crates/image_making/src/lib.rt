// Pools made from numbers and from a history, written as images, a check of an image, and transcripts told. Any bytes,
// numbers and buffers get an answer; beside the answer a refused call writes nothing. The answer is a number, beside
// places filled in the caller's memory, and no Result: C gets it so.
#![tactic(auto)]

ghost use Rattle.std.specs.Prelude.{◌≡◌, cond, ◌≤◌, ltb, length};
ghost use Rattle.pools.specs.Pools.{state_of, ValidPool};
ghost use Rattle.image_making.specs.Promises.{Checked, unstored, stored_as, FreshStored, ReplayStored, Transcript};

use answers::put;
use pools::{Pool, PoolAnswer};
use refusals::Refusal;

// Whether the bytes are an image of a pool: 0, or 14 under 19 bytes or for another mark, 15 for another
// version, 16 for any other fault.
pub fn check(image: &[u8]) -> u32
    ensures { Checked image.now result }
{
    images::read(image).refusal
}

// Writes the image of a pool, and answers its length.
fn store(pool: Pool, image: &mut [u8], answer: &mut [u64]) -> u32
    requires { ValidPool pool × (1 ≤ length answer.old) }
    ensures { record { number = result; image = image.new; answer = answer.new } ≡ stored_as (state_of pool) image.old answer.old }
{
    match images::store(pool, image) {
        Ok(size) => {
            put(answer, [size as u64]);
            0
        }
        Err(refusal) => {
            put(answer, [0]);
            u32::from(refusal)
        }
    }
}

// Writes the image of the pool that a call has made, if it was not refused.
fn store_made(made: PoolAnswer, image: &mut [u8], answer: &mut [u64]) -> u32
    requires { ValidPool made.pool × (1 ≤ length answer.old) }
    ensures { record { number = result; image = image.new; answer = answer.new } ≡
        cond (ltb 0 made.refusal) (unstored made.refusal image.old answer.old)
        (stored_as (state_of made.pool) image.old answer.old) }
{
    if made.refusal > 0 {
        put(answer, [0]);
        return made.refusal;
    }
    store(made.pool, image, answer)
}

// The image of a fresh pool; answer: its length. 2 where the range is not within 1 to 4,294,967,296 or the
// limit not within 1 to 4,096; 17 where the buffer is too short.
pub fn fresh(range: u64, limit: u64, image: &mut [u8], answer: &mut [u64]) -> u32
    ensures { FreshStored range limit image.old answer.old (record { number = result; image = image.new; answer = answer.new }) }
{
    if answer.is_empty() {
        return u32::from(Refusal::ShortBuffer);
    }
    store_made(pools::fresh(range, limit), image, answer)
}

// The image of the pool that a history leaves, refused lines included; answer: its length. 2 for more than
// 65,536 bytes; 17 where the buffer is too short.
pub fn replay(text: &[u8], image: &mut [u8], answer: &mut [u64]) -> u32
    ensures { ReplayStored text.now image.old answer.old (record { number = result; image = image.new; answer = answer.new }) }
{
    if answer.is_empty() {
        return u32::from(Refusal::ShortBuffer);
    }
    store_made(history::pool_after(text), image, answer)
}

// What `slices` prints of a history; answer: its length. 17 for a buffer of less than 3,145,728 bytes.
pub fn transcript(text: &[u8], out: &mut [u8], answer: &mut [u64]) -> u32
    ensures { Transcript text.now out.old answer.old (record { number = result; image = out.new; answer = answer.new }) }
{
    if answer.is_empty() {
        return u32::from(Refusal::ShortBuffer);
    }
    match history::transcript(text, out) {
        Ok(printed) => {
            put(answer, [printed as u64]);
            0
        }
        Err(refusal) => {
            put(answer, [0]);
            u32::from(refusal)
        }
    }
}
