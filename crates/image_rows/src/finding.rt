// One device of an image's pool, found by its id.
ghost use Rattle.image_rows.specs.Promises.{FoundOn};

use packed_runs::blank;
use refusals::Refusal;
use valid_pools::{Found, find_device};

// The device of an id. 14 to 16 as of a read; 2 for an id outside 1 to 65,535; 5 where it is absent.
pub fn find_on(image: &[u8], id: u64) -> Result<Found, Refusal>
    ensures { FoundOn image.now id result }
{
    let mut table = blank();
    let made = images::read_open(image, &mut table)?;
    find_device(made.opened, &table, id)
}
