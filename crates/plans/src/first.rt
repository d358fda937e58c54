// The first device of a pool.
ghost use Rattle.std.specs.Prelude.{◌≡◌, List, [], ◌∷◌, ℕ, ◌≤◌, length};
ghost use Rattle.slicing.specs.Changes as Changes;
ghost use Rattle.slicing.specs.Devices as Devices;
ghost use Rattle.slicing.specs.Limits as Limits;
ghost use Rattle.slicing.specs.Runs.{◌of◌};
ghost use Rattle.packed_runs.specs.Words.{room};
ghost use Rattle.plans.specs.Plans.{Accepted};

use crate::Plan;
use opened::Opened;
use packed_runs::{LABELS, ROOM};

// The only device of a pool gets the whole range, and nothing moves.
pub fn first(before: Opened, id: u64, capacity: u64, next: &mut [u64; ROOM]) -> Plan
    requires le_range { (1 ≤ before.range) × (before.range ≤ 4294967296) × (1 ≤ before.limit) × (before.limit ≤ 4096) }
    requires le_id { (1 ≤ id) × (id ≤ 65535) × (1 ≤ capacity) × (capacity ≤ Limits.max_capacity) × (length next.old ≡ room) }
    requires ids_len { (length before.ids ≡ 256) × (length before.capacities ≡ 256) × (length before.has ≡ 256) }
    ensures accepted { (s : Changes.State) (places : ℕ) (work : List ℕ) → s.range ≡ before.range → s.limit ≡ before.limit
        → Accepted (λ lent. Changes.accepted s lent (Devices.device id capacity ∷ []) ((s.range of id) ∷ []) []) places result work next.new }
    ensures next_len { length next.new ≡ room }
{
    next[0] = before.range * LABELS;
    let mut after = before;
    after.devices = 1;
    after.ids[0] = id;
    after.capacities[0] = capacity;
    after.has[0] = before.range;
    after.intervals = 1;
    Plan {
        moved: 0,
        count: 0,
        turns: 0,
        names: after.ids,
        after,
    }
}
