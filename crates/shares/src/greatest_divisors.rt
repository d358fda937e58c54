// Shares by greatest divisors.
ghost use Rattle.std.specs.Prelude.{◌≡◌, ◌≤◌, length};
ghost use Rattle.slicing.specs.Devices.{Rising};
ghost use Rattle.slicing.specs.GreatestDivisors.{greatest_divisors};
ghost use Rattle.slicing.specs.Limits.{max_range};
ghost use Rattle.slicing_core.specs.Rows.{rows, device_rows};

use crate::capacities::sum;
use crate::dues::floors;
use crate::tournament::{NODES, leaves, play, replay};
use slicing::MAX_DEVICES;

// The share of each of the n devices by greatest divisors: each starts at its lower quota, and the points
// left over go one by one to the row that wins the tournament.
pub fn shares(
    range: u64,
    ids: &[u64; MAX_DEVICES],
    capacities: &[u64; MAX_DEVICES],
    n: usize,
) -> [u64; MAX_DEVICES]
    requires { (1 ≤ n) × (n ≤ 256) × (range ≤ max_range) × Rising 0 (device_rows ids.now capacities.now 0 n) }
    ensures shares { rows result ids.now 0 n ≡ greatest_divisors range (device_rows ids.now capacities.now 0 n) }
    ensures result_len { length result ≡ 256 }
{
    let c = sum(capacities, ids, n);
    let mut points = [0u64; MAX_DEVICES];
    let left = floors(&mut points, range, capacities, ids, n, c);
    let mut tree = [0usize; NODES];
    leaves(&mut tree, n);
    play(&mut tree, &points, capacities, n);
    for _ in 0..left {
        let w = tree[1];
        points[w] += 1;
        replay(&mut tree, &points, capacities, n, w);
    }
    points
}
