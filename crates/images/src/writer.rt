// Writing an image.
ghost use Rattle.std.specs.Prelude.{◌≡◌, length};
ghost use Rattle.pools.specs.Pools.{state_of, ValidPool};
ghost use Rattle.images.specs.Promises.{write_answer, buffer_after, WrittenAs};

use image_bytes::writing::put_image;
use image_numbers::{HEAD, ROW};
use pools::Pool;
use refusals::Refusal;
use valid_pools::valid;

// Writes the image of a valid pool, and answers its length. 17 where the buffer is too short. The bytes
// past the image stay. Not inlined: the copy of the pool that it writes, 26 KB, is on the stack for this call alone.
#[inline(never)]
pub fn store(pool: Pool, buffer: &mut [u8]) -> Result<usize, Refusal>
    requires { ValidPool pool }
    ensures answer { result ≡ write_answer (state_of pool) (length buffer.old) }
    ensures buffer { buffer.new ≡ buffer_after (state_of pool) buffer.old }
{
    let size = HEAD + ROW * pool.devices + ROW * pool.intervals;
    if buffer.len() < size {
        return Err(Refusal::ShortBuffer);
    }
    put_image(pool, buffer);
    Ok(size)
}

// Writes the image of a pool, and answers its length. 2 for a pool that is not valid, 17 where the
// buffer is too short. The bytes past the image stay.
pub fn write(pool: Pool, buffer: &mut [u8]) -> Result<usize, Refusal>
    ensures { WrittenAs pool buffer.old result buffer.new }
{
    if !valid(pool) {
        return Err(Refusal::Outside);
    }
    store(pool, buffer)
}
