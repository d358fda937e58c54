// For bench/shares. What is required is met by its caller, which is no part of the product.
ghost use Rattle.std.specs.Prelude.{◌≡◌, ◌≤◌};
ghost use Rattle.slicing.specs.Devices.{Rising};
ghost use Rattle.slicing.specs.LargestRemainder.{largest_remainder};
ghost use Rattle.slicing.specs.Limits.{max_range};
ghost use Rattle.slicing.specs.ShareRule.{shares as Rule·shares};
ghost use Rattle.slicing_core.specs.Rows.{rows, device_rows};

use slicing::MAX_DEVICES;

// The shares by the rule in force.
#[unsafe(no_mangle)]
pub extern "C" fn bench_shares(
    into: &mut [u64; MAX_DEVICES],
    range: u64,
    ids: &[u64; MAX_DEVICES],
    capacities: &[u64; MAX_DEVICES],
    n: usize,
)
    requires { (1 ≤ n) × (n ≤ 256) × (range ≤ max_range) × Rising 0 (device_rows ids.now capacities.now 0 n) }
    ensures { rows into.new ids.now 0 n ≡ Rule·shares range (device_rows ids.now capacities.now 0 n) }
{
    *into = shares::shares(range, ids, capacities, n);
}

// The shares by the rule before Wish 4.
#[unsafe(no_mangle)]
pub extern "C" fn bench_shares_before(
    into: &mut [u64; MAX_DEVICES],
    range: u64,
    ids: &[u64; MAX_DEVICES],
    capacities: &[u64; MAX_DEVICES],
    n: usize,
)
    requires { (1 ≤ n) × (n ≤ 256) × (range ≤ max_range) × Rising 0 (device_rows ids.now capacities.now 0 n) }
    ensures { rows into.new ids.now 0 n ≡ largest_remainder range (device_rows ids.now capacities.now 0 n) }
{
    *into = largest_remainder::shares(range, ids, capacities, n);
}
