// The share rule before Wish 4: shares by largest remainder, which images of version 1 were written under.
// Internal: nothing in force calls it, and bench/shares measures against it.
#![tactic(auto)]

ghost use Rattle.std.specs.Prelude.{◌≡◌, ◌≤◌, ◌<◌, length};
ghost use Rattle.slicing.specs.Devices.{Rising};
ghost use Rattle.slicing.specs.LargestRemainder.{largest_remainder};
ghost use Rattle.slicing.specs.Limits.{max_range};
ghost use Rattle.slicing_core.specs.Rows.{rows, device_rows};
ghost use Rattle.largest_remainder.specs.Remainders.{Remained};
ghost use Rattle.largest_remainder.specs.Remainders.{rank as rank_of};

use shares::capacities::sum;
use shares::dues::floors;
use slicing::MAX_DEVICES;

// What the rounding of each device leaves, where c is the sum of the capacities. The contract alone reads the
// ids.
fn remainders(
    range: u64,
    capacities: &[u64; MAX_DEVICES],
    ids: &[u64; MAX_DEVICES],
    n: usize,
    c: u64,
) -> [u64; MAX_DEVICES]
    requires { (n ≤ 256) × (range ≤ max_range) × Rising 0 (device_rows ids.now capacities.now 0 n) × (1 ≤ c) }
    ensures { Remained range capacities.now n c result }
{
    let mut into = [0u64; MAX_DEVICES];
    for i in 0..n {
        into[i] = range * capacities[i] % c;
    }
    into
}

// How many devices go before the one at place p where points are left over: those with a larger
// remainder, and of equal ones those with a lower id.
fn rank(remainders: &[u64; MAX_DEVICES], ids: &[u64; MAX_DEVICES], n: usize, p: usize) -> u64
    requires { (n ≤ 256) × (p < n) }
    ensures { result ≡ rank_of remainders.now ids.now p 0 n }
{
    let own = remainders[p];
    let id = ids[p];
    let mut before = 0;
    for i in 0..n {
        let other = remainders[i];
        if own < other || (own == other && ids[i] < id) {
            before += 1;
        }
    }
    before
}

// The share of each of the n devices by largest remainder.
pub fn shares(
    range: u64,
    ids: &[u64; MAX_DEVICES],
    capacities: &[u64; MAX_DEVICES],
    n: usize,
) -> [u64; MAX_DEVICES]
    requires { (1 ≤ n) × (n ≤ 256) × (range ≤ max_range) × Rising 0 (device_rows ids.now capacities.now 0 n) }
    ensures shares { rows result ids.now 0 n ≡ largest_remainder range (device_rows ids.now capacities.now 0 n) }
    ensures result_len { length result ≡ 256 }
{
    let c = sum(capacities, ids, n);
    let mut points = [0u64; MAX_DEVICES];
    let leftover = floors(&mut points, range, capacities, ids, n, c);
    let left = remainders(range, capacities, ids, n, c);
    for i in 0..n {
        if rank(&left, ids, n, i) < leftover {
            points[i] += 1;
        }
    }
    points
}
