// The capacities of a pool's devices.
ghost use Rattle.std.specs.Prelude.{◌≡◌, ◌≤◌};
ghost use Rattle.slicing.specs.Devices.{Rising};
ghost use Rattle.slicing.specs.Devices.{capacities as capacities_of};
ghost use Rattle.slicing_core.specs.Rows.{device_rows};

use slicing::MAX_DEVICES;

// The sum of the capacities. The contract alone reads the ids: it speaks of devices.
pub fn sum(capacities: &[u64; MAX_DEVICES], ids: &[u64; MAX_DEVICES], n: usize) -> u64
    requires { (n ≤ 256) × Rising 0 (device_rows ids.now capacities.now 0 n) }
    ensures { result ≡ capacities_of (device_rows ids.now capacities.now 0 n) }
{
    capacities[..n].iter().sum()
}
