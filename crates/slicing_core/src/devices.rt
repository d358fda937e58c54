// Rows of devices, by rising id.
ghost use Rattle.std.specs.Prelude.{◌≡◌, true, ◌+◌, ◌-◌, ◌≤◌, ◌<◌, length};
ghost use Rattle.slicing.specs.Devices.{Rising};
ghost use Rattle.slicing_core.specs.Rows.{device_rows};
ghost use Rattle.slicing_core.specs.Stages.{Decides, Inserted, Deleted};

use slicing::{MAX_CAPACITY, MAX_DEVICES, MAX_ID, outside};

// Whether the n devices are within their limits and their ids rise.
pub fn rising(ids: &[u64; MAX_DEVICES], capacities: &[u64; MAX_DEVICES], n: usize) -> bool
    requires { n ≤ 256 }
    ensures { Decides result (Rising 0 (device_rows ids.now capacities.now 0 n)) }
{
    let mut last = 0;
    for i in 0..n {
        let id = ids[i];
        if id <= last || id > MAX_ID || outside(MAX_CAPACITY, capacities[i]) {
            return false;
        }
        last = id;
    }
    true
}

// The n rows with `value` at place p, those from there on moved up by one.
pub fn insert_row(rows: &[u64; MAX_DEVICES], n: usize, p: usize, value: u64) -> [u64; MAX_DEVICES]
    requires { (p ≤ n) × (n < 256) × (length rows.now ≡ 256) }
    ensures { Inserted rows.now n p value result }
{
    let mut into = *rows;
    into[p + 1..n + 1].copy_from_slice(&rows[p..n]);
    into[p] = value;
    into
}

// The n rows without that at place p, those after it moved down by one.
pub fn delete_row(rows: &[u64; MAX_DEVICES], n: usize, p: usize) -> [u64; MAX_DEVICES]
    requires { (p < n) × (n ≤ 256) × (length rows.now ≡ 256) }
    ensures { Deleted rows.now n p result }
{
    let mut into = *rows;
    into[p..n - 1].copy_from_slice(&rows[p + 1..n]);
    into
}
