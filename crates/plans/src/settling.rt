// The six steps on an opened pool, and the checks of their result.
ghost use Rattle.std.specs.Prelude.{◌≡◌, length};
ghost use Rattle.slicing.specs.Changes as Changes;
ghost use Rattle.slicing.specs.ShareRule.{shares};
ghost use Rattle.packed_runs.specs.Words.{room};
ghost use Rattle.opened.specs.OpenPools.{devices_in};
ghost use Rattle.plans.specs.Plans.{Merged, Planned, state_by};

use crate::labels::lower;
use crate::{Plan, Rows};
use opened::Opened;
use packed_runs::ROOM;
use refusals::Refusal;
use six_steps::steps::steps;

// The change of `before` to the devices of `after`. `work` has the table of the rows, and the turns
// afterwards; `next` gets the table of `after`.
pub fn settle(
    before: Opened,
    after: Opened,
    rows: Rows,
    places: usize,
    work: &mut [u64; ROOM],
    next: &mut [u64; ROOM],
) -> Result<Plan, Refusal>
    requires { Merged before after rows work.old × (length work.old ≡ room) × (length next.old ≡ room) }
    ensures planned { Planned (λ lent. Changes.settle shares (state_by before rows work.old) lent (devices_in after)) places result work.new next.new }
    ensures work_len { (length work.new ≡ room) × (length next.new ≡ room) }
{
    let done = steps(
        &mut *work,
        before.intervals,
        &rows.has,
        &rows.due,
        rows.count,
        &mut *next,
    );
    let limit = before.limit as usize;
    if done.intervals > limit {
        return Err(Refusal::OverLimit);
    }
    if done.count > places {
        return Err(Refusal::ShortList);
    }
    lower(next, done.intervals, rows.gone);
    let mut made = after;
    made.intervals = done.intervals;
    Ok(Plan {
        moved: done.moved,
        count: done.count,
        turns: done.turns,
        names: rows.names,
        after: made,
    })
}
