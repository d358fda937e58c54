// What each device is due of a range as a whole number, and the points left over: where both share rules
// begin.
ghost use Rattle.std.specs.Prelude.{◌≡◌, ◌≤◌, length};
ghost use Rattle.slicing.specs.Devices.{Rising};
ghost use Rattle.slicing.specs.Devices.{capacities as capacities_of};
ghost use Rattle.slicing.specs.Limits.{max_range};
ghost use Rattle.slicing_core.specs.Rows.{device_rows};
ghost use Rattle.shares.specs.Dues.{Floored};

use slicing::MAX_DEVICES;

// Puts each device at its capacity's part of the range, rounded down, where c is the sum of the capacities.
// Answers the points left over. The contract alone reads the ids.
pub fn floors(
    into: &mut [u64; MAX_DEVICES],
    range: u64,
    capacities: &[u64; MAX_DEVICES],
    ids: &[u64; MAX_DEVICES],
    n: usize,
    c: u64,
) -> u64
    requires n_bound { (n ≤ 256) × (range ≤ max_range) × Rising 0 (device_rows ids.now capacities.now 0 n) }
    requires c_value { (c ≡ capacities_of (device_rows ids.now capacities.now 0 n)) × (1 ≤ c) × (length into.old ≡ 256) }
    ensures { Floored range ids.now capacities.now n c into.new result }
{
    let mut left = range;
    for i in 0..n {
        let quota = range * capacities[i] / c;
        into[i] = quota;
        left -= quota;
    }
    left
}
