// The devices of an opened pool: the row of an id, and their shares.
ghost use Rattle.std.specs.Prelude.{◌≡◌, ◌≤◌, length};
ghost use Rattle.slicing.specs.Devices as Devices;
ghost use Rattle.slicing.specs.Limits as Limits;
ghost use Rattle.slicing.specs.ShareRule.{shares as shares_of};
ghost use Rattle.slicing_core.specs.Rows.{rows, device_rows};
ghost use Rattle.slicing_core.specs.Stages.{Ascending, Position};
ghost use Rattle.opened.specs.RowsById.{Sought};

use crate::Opened;
use shares::shares;
use slicing::MAX_DEVICES;

// How many of the n rising ids are below `id`, by halving.
pub fn position(ids: &[u64; MAX_DEVICES], n: usize, id: u64) -> usize
    requires { (n ≤ 256) × Ascending ids.now n }
    ensures { Position ids.now n id result }
{
    let mut low = 0;
    let mut high = n;
    // A while: with `partition_point` a pool of 256 devices and 4,096 intervals took a quarter more instructions to check.
    while low < high {
        let middle = (low + high) / 2;
        if ids[middle] < id {
            low = middle + 1;
        } else {
            high = middle;
        }
    }
    low
}

// The row of a device; where it is absent, as an error, the row that it would have.
pub fn find(ids: &[u64; MAX_DEVICES], n: usize, id: u64) -> Result<usize, usize>
    requires { (n ≤ 256) × Ascending ids.now n }
    ensures { Sought ids.now n id result }
{
    let row = position(ids, n, id);
    if row < n {
        if ids[row] == id {
            return Ok(row);
        }
    }
    Err(row)
}

// The pool with the n devices, each having its share.
pub fn shared(
    before: Opened,
    n: usize,
    ids: &[u64; MAX_DEVICES],
    capacities: &[u64; MAX_DEVICES],
) -> Opened
    requires { (1 ≤ n) × (n ≤ 256) × (before.range ≤ Limits.max_range) × Devices.Rising 0 (device_rows ids.now capacities.now 0 n) }
    ensures same { (result.range ≡ before.range) × (result.limit ≡ before.limit) × (result.devices ≡ n) × (result.ids ≡ ids.now) × (result.capacities ≡ capacities.now) }
    ensures shares { rows result.has ids.now 0 n ≡ shares_of before.range (device_rows ids.now capacities.now 0 n) }
    ensures has_len { length result.has ≡ 256 }
{
    let due = shares(before.range, ids, capacities, n);
    Opened {
        devices: n,
        ids: *ids,
        capacities: *capacities,
        has: due,
        ..before
    }
}
