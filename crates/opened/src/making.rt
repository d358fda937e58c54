// A pool without devices, opened.
ghost use Rattle.std.specs.Prelude.{◌≡◌, false, ◌||◌, List, ℕ, length};
ghost use Rattle.slicing.specs.Changes as Changes;
ghost use Rattle.slicing.specs.Limits as Limits;
ghost use Rattle.packed_runs.specs.Words.{room};
ghost use Rattle.opened.specs.OpenPools.{state_in, Open};

use crate::Opened;
use slicing::MAX_DEVICES;

// A pool of so many points and at most so many intervals, without devices. Any array is its table.
pub fn without_devices(range: u64, limit: u64) -> Opened
    requires { Limits.outside Limits.max_range range || Limits.outside Limits.max_limit limit ≡ false }
    ensures { (table : List ℕ) → length table ≡ room → Open result table × (state_in result table ≡ Changes.fresh range limit) }
{
    Opened {
        range,
        limit,
        devices: 0,
        ids: [0; MAX_DEVICES],
        capacities: [0; MAX_DEVICES],
        has: [0; MAX_DEVICES],
        intervals: 0,
    }
}
