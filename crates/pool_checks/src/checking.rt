// The parts of a pool's validity that do not speak of the intervals' points.
ghost use Rattle.std.specs.Prelude.{◌≡◌, length};
ghost use Rattle.slicing_core.specs.Stages.{Decides};
ghost use Rattle.pools.specs.Pools.{Zeros, Limited, Cleared, Formed};

use pools::Pool;
use slicing::{MAX_DEVICES, MAX_LIMIT, MAX_RANGE, outside};
use slicing_core::devices::rising;

// Whether the numbers of a pool are within their limits.
fn limited(pool: &Pool) -> bool
    ensures { Decides result (Limited pool.now) }
{
    let limit = u64::from(pool.limit);
    if outside(MAX_RANGE, pool.range) || outside(MAX_LIMIT, limit) {
        return false;
    }
    pool.devices <= MAX_DEVICES && pool.intervals <= pool.limit as usize
}

// Whether all places from n on are 0, of ids and the numbers beside them.
fn unused(ids: &[u16], values: &[u32], n: usize) -> bool
    requires { length ids.now ≡ length values.now }
    ensures { Decides result (Zeros ids.now n × Zeros values.now n) }
{
    for i in n..ids.len() {
        if ids[i] != 0 || values[i] != 0 {
            return false;
        }
    }
    true
}

// Whether all unused places of a pool are 0.
pub fn cleared(pool: Pool) -> bool
    ensures { Decides result (Cleared pool) }
{
    unused(&pool.ids, &pool.capacities, pool.devices)
        && unused(&pool.owners, &pool.starts, pool.intervals)
}

// Whether all but the intervals' points is as in a valid pool, where the unused places are 0; ids and
// capacities are the pool's.
pub fn formed(pool: Pool, ids: &[u64; MAX_DEVICES], capacities: &[u64; MAX_DEVICES]) -> bool
    requires { Cleared pool × (ids.now ≡ pool.ids) × (capacities.now ≡ pool.capacities) }
    ensures { Decides result (Formed pool) }
{
    limited(&pool)
        && rising(ids, capacities, pool.devices)
        && (pool.devices > 0 || pool.intervals == 0)
}
