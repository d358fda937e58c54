// All six steps, one stage after the other.
ghost use Rattle.std.specs.Prelude.{◌≡◌, ◌≤◌, ◌<◌, ◌^◌, length};
ghost use Rattle.slicing.specs.Runs.{total};
ghost use Rattle.slicing.proofs.SixSteps.{Balanced};
ghost use Rattle.slicing_core.specs.Stages.{Below};
ghost use Rattle.packed_runs.specs.Words.{runs, by_row, room, Labelled};
ghost use Rattle.six_steps.specs.Steps.{Stepped};

use crate::cutting::cut;
use crate::joining::{count_moves, new_table};
use crate::quotas::quotas;
use filling::fill;
use packed_runs::ROOM;
use slicing::MAX_DEVICES;

// What the steps leave: how many turns and intervals there are, the moved points and the number of moves.
#[derive(Clone, Copy)]
pub struct Done {
    pub turns: usize,
    pub intervals: usize,
    pub moved: u64,
    pub count: usize,
}

// The table of q intervals of n devices, of which each has `has` and is to have `due`, changed by the six
// steps. `work` has the table, and the turns afterwards; `next` gets the new table.
pub fn steps(
    work: &mut [u64; ROOM],
    q: usize,
    has: &[u64; MAX_DEVICES],
    due: &[u64; MAX_DEVICES],
    n: usize,
    next: &mut [u64; ROOM],
) -> Done
    requires q_bound { (q ≤ 4096) × (n ≤ 256) × Labelled n work.old q × (total (runs work.old 0 q) < 2 ^ 48) }
    requires below { Below (2 ^ 48) has.now n × Below (2 ^ 48) due.now n × Balanced (runs work.old 0 q) (by_row has.now 0 n) (by_row due.now 0 n) }
    requires work_len { (length work.old ≡ room) × (length next.old ≡ room) }
    ensures { Stepped (runs work.old 0 q) (by_row has.now 0 n) (by_row due.now 0 n) n work.new next.new result }
{
    let mut release = [0u64; MAX_DEVICES];
    let mut queue = [0u64; MAX_DEVICES];
    let moved = quotas(has, due, n, &mut release, &mut queue);
    let pieces = cut(work, q, &mut release, next);
    let turns = fill(next, pieces, &mut queue, n, work);
    Done {
        turns,
        intervals: new_table(work, turns, next),
        moved,
        count: count_moves(work, turns),
    }
}
