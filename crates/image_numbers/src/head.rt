// The head of an image, written.
ghost use Rattle.std.specs.Prelude.{◌≡◌, ◌++◌, ◌≤◌, ◌<◌, ◌^◌, length, drop};
ghost use Rattle.image_numbers.specs.Format.{head_size, head};

use crate::numbers::put;
use crate::{MARK, VERSION};

// Writes the head of an image.
pub fn put_head(buffer: &mut [u8], range: u64, limit: u64, n: u64, q: u64)
    requires { (head_size ≤ length buffer.old) × (limit < 2 ^ 16) × (n < 2 ^ 16) × (q < 2 ^ 16) }
    ensures { buffer.new ≡ head range limit n q ++ drop head_size buffer.old }
{
    put::<3>(buffer, 0, MARK);
    put::<2>(buffer, 3, VERSION);
    put::<8>(buffer, 5, range);
    put::<2>(buffer, 13, limit);
    put::<2>(buffer, 15, n);
    put::<2>(buffer, 17, q);
}
