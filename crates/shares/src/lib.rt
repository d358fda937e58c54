// The share rule in code: what each device of a pool is to have. Internal: `opened` and `valid_pools` stand on it.
// `shares` names the rule in force, which is a module of its own; another rule is another module or, as that
// before this one is, a crate.
#![tactic(auto)]

pub mod capacities;
pub mod dues;
mod greatest_divisors;
mod tournament;

ghost use Rattle.std.specs.Prelude.{◌≡◌, ◌≤◌, length};
ghost use Rattle.slicing.specs.Devices.{Rising};
ghost use Rattle.slicing.specs.Limits.{max_range};
ghost use Rattle.slicing.specs.ShareRule.{shares as Rule·shares};
ghost use Rattle.slicing_core.specs.Rows.{rows, device_rows};

use slicing::MAX_DEVICES;

// The share of each of the n devices by the rule in force; the places past them are free.
pub fn shares(
    range: u64,
    ids: &[u64; MAX_DEVICES],
    capacities: &[u64; MAX_DEVICES],
    n: usize,
) -> [u64; MAX_DEVICES]
    requires { (1 ≤ n) × (n ≤ 256) × (range ≤ max_range) × Rising 0 (device_rows ids.now capacities.now 0 n) }
    ensures shares { rows result ids.now 0 n ≡ Rule·shares range (device_rows ids.now capacities.now 0 n) }
    ensures result_len { length result ≡ 256 }
{
    greatest_divisors::shares(range, ids, capacities, n)
}
