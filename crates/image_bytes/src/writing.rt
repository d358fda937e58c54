// A whole image, written.
ghost use Rattle.std.specs.Prelude.{◌≡◌, ◌++◌, ◌+◌, ◌*◌, ◌≤◌, length, drop};
ghost use Rattle.pools.specs.Pools.{state_of, ValidPool};
ghost use Rattle.image_numbers.specs.Format.{head_size, image_of};

use crate::rows::{put_devices, put_intervals};
use image_numbers::head::put_head;
use image_numbers::{HEAD, ROW};
use pools::Pool;

// Writes the image of a pool into a buffer that has room for it.
pub fn put_image(pool: Pool, buffer: &mut [u8])
    requires { ValidPool pool × (head_size + 6 * pool.devices + 6 * pool.intervals ≤ length buffer.old) }
    ensures { buffer.new ≡ image_of (state_of pool) ++ drop (length (image_of (state_of pool))) buffer.old }
{
    let n = pool.devices;
    let q = pool.intervals;
    put_head(
        buffer,
        pool.range,
        u64::from(pool.limit),
        n as u64,
        q as u64,
    );
    put_devices(&mut buffer[HEAD..], &pool.ids, &pool.capacities, n);
    let end = HEAD + ROW * n;
    put_intervals(&mut buffer[end..], &pool.starts, &pool.owners, q);
}
