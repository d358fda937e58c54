// The offered call for a fresh pool.
ghost use Rattle.std.specs.Prelude.{◌≡◌};
ghost use Rattle.slicing.specs.Changes as Changes;
ghost use Rattle.pools.specs.Pools.{pool_of};
ghost use Rattle.pools.specs.Promises.{Fresh};

use crate::{Pool, PoolAnswer};
use refusals::Refusal;
use slicing::{MAX_DEVICES, MAX_INTERVALS, MAX_LIMIT, MAX_RANGE, outside};

// A pool without devices.
fn without_devices(range: u64, limit: u32) -> Pool
    ensures { result ≡ pool_of (Changes.fresh range limit) }
{
    Pool {
        range,
        limit,
        devices: 0,
        ids: [0; MAX_DEVICES],
        capacities: [0; MAX_DEVICES],
        intervals: 0,
        starts: [0; MAX_INTERVALS],
        owners: [0; MAX_INTERVALS],
    }
}

// A fresh pool. 2 where the range is not within 1 to 4,294,967,296 or the limit not within 1 to 4,096;
// then the pool has R = 1 and M = 1.
pub fn fresh(range: u64, limit: u64) -> PoolAnswer
    ensures { Fresh range limit result }
{
    if outside(MAX_RANGE, range) || outside(MAX_LIMIT, limit) {
        return PoolAnswer {
            refusal: u32::from(Refusal::Outside),
            pool: without_devices(1, 1),
        };
    }
    PoolAnswer {
        refusal: 0,
        pool: without_devices(range, limit as u32),
    }
}
