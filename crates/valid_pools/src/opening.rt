// A valid pool opened: its devices by row, and its table as runs of rows.
ghost use Rattle.std.specs.Prelude.{◌≡◌, IfSome, is_some, length};
ghost use Rattle.slicing_core.specs.Stages.{Decides};
ghost use Rattle.packed_runs.specs.Words.{room};
ghost use Rattle.opened.specs.OpenPools.{state_in, Open};
ghost use Rattle.pools.specs.Pools.{state_of, ValidPool, Cleared};
ghost use Rattle.valid_pools.specs.Opening.{Widened, Entered};

use opened::Opened;
use packed_runs::{ROOM, blank};
use pool_checks::checking::{cleared, formed};
use pool_checks::tables::dealt;
use pools::Pool;
use shares::shares;
use slicing::MAX_DEVICES;

// Copies n ids, and the numbers beside them, into 64-bit places.
fn widen(into: &mut [u64], beside: &mut [u64], ids: &[u16], values: &[u32], n: usize)
    requires { (length ids.now ≡ n) × (length values.now ≡ n) × (length into.old ≡ n) × (length beside.old ≡ n) }
    ensures ids { Widened ids.now n into.new }
    ensures values { Widened values.now n beside.new }
{
    // A loop: with a map of each array a pool of eight devices took three tenths more instructions to check.
    for i in 0..n {
        into[i] = u64::from(ids[i]);
        beside[i] = u64::from(values[i]);
    }
}

// A pool's numbers as those of an opened one, which has nothing yet.
fn entered(pool: &Pool) -> Opened
    ensures { Entered pool.now result }
{
    let mut ids = [0u64; MAX_DEVICES];
    let mut capacities = [0u64; MAX_DEVICES];
    widen(
        &mut ids,
        &mut capacities,
        &pool.ids,
        &pool.capacities,
        MAX_DEVICES,
    );
    Opened {
        range: pool.range,
        limit: u64::from(pool.limit),
        devices: pool.devices,
        ids,
        capacities,
        has: [0; MAX_DEVICES],
        intervals: pool.intervals,
    }
}

// A pool whose unused places are 0, opened, if it is valid: each of its devices has what its table gives, and that is
// its share.
pub fn open_cleared(pool: Pool, table: &mut [u64; ROOM]) -> Option<Opened>
    requires { Cleared pool × (length table.old ≡ room) }
    ensures valid { Decides (is_some result) (ValidPool pool) }
    ensures opened { IfSome result (λ o. Open o table.new × (state_in o table.new ≡ state_of pool)) }
    ensures table_len { length table.new ≡ room }
{
    let n = pool.devices;
    let mut opened = entered(&pool);
    if !formed(pool, &opened.ids, &opened.capacities) {
        return None;
    }
    if n == 0 {
        return Some(opened);
    }
    let due = shares(pool.range, &opened.ids, &opened.capacities, n);
    let Some(has) = dealt(
        &pool.starts,
        &pool.owners,
        pool.intervals,
        pool.range,
        &opened.ids,
        n,
        &due,
        table,
    ) else {
        return None;
    };
    opened.has = has;
    Some(opened)
}

// A pool opened, if it is valid.
pub fn open(pool: Pool, table: &mut [u64; ROOM]) -> Option<Opened>
    requires { length table.old ≡ room }
    ensures valid { Decides (is_some result) (ValidPool pool) }
    ensures opened { IfSome result (λ o. Open o table.new × (state_in o table.new ≡ state_of pool)) }
    ensures table_len { length table.new ≡ room }
{
    if !cleared(pool) {
        return None;
    }
    open_cleared(pool, table)
}

// Whether a pool holds a valid state, and nothing else.
pub fn valid(pool: Pool) -> bool
    ensures { Decides result (ValidPool pool) }
{
    let mut table = blank();
    open(pool, &mut table).is_some()
}
