// The owner of a point. The pool of an image that was read is valid, so the lookup is the one on its arrays,
// which decides nothing again.
ghost use Rattle.image_lookups.specs.Promises.{Owned};

use answers::put;
use lookup_numbers::put_owner;
use lookups::Table;
use refusals::Refusal;

// The owner of a point; answer: its id. 14 to 16 as of a read; 13 where the point is at or above the
// range, then 10 where no device is present.
pub fn owner(image: &[u8], point: u64, answer: &mut [u64]) -> u32
    ensures { Owned image.now point answer.old (record { number = result; places = answer.new }) }
{
    if answer.is_empty() {
        return u32::from(Refusal::ShortBuffer);
    }
    let made = images::read(image);
    if made.refusal > 0 {
        put(answer, [0]);
        return made.refusal;
    }
    let found = Table::of(&made.pool).owner(point);
    put_owner(answer, found)
}
