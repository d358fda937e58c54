// The pool that a history text leaves.
ghost use Rattle.history.specs.Promises.{Left};

use crate::transcripts::LONGEST;
use history_lines::part_at;
use history_steps::advance;
use opened::making::without_devices;
use packed_runs::blank;
use pools::{PoolAnswer, close};
use refusals::Refusal;

// The pool that a history leaves, refused lines included. 2 for more than 65,536 bytes; then the pool has
// R = 1 and M = 1.
pub fn pool_after(text: &[u8]) -> PoolAnswer
    ensures { Left text.now result }
{
    let mut table = blank();
    let mut work = blank();
    let mut next = blank();
    let mut begun = false;
    let mut pool = without_devices(1, 1);
    if text.len() > LONGEST {
        return PoolAnswer {
            refusal: u32::from(Refusal::Outside),
            pool: close(pool, &table),
        };
    }
    let mut from = 0;
    // A while: a line that was read says where the next one starts.
    while from < text.len() {
        let part = part_at(text, from);
        if let Ok(said) = part.said {
            if let Ok(step) = advance(begun, pool, Ok(said), &mut table, &mut work, &mut next) {
                begun = true;
                pool = step.pool;
            }
        }
        from = part.next;
    }
    PoolAnswer {
        refusal: 0,
        pool: close(pool, &table),
    }
}
