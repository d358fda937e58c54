// One device, found by its id in an opened pool or in a pool by value.
ghost use Rattle.opened.specs.OpenPools.{state_in, Open};
ghost use Rattle.valid_pools.specs.Finding.{FoundIn, FoundOf};

use crate::opening::open;
use opened::Opened;
use opened::devices::find;
use packed_runs::{ROOM, blank};
use pools::Pool;
use refusals::Refusal;
use shares::capacities::sum;
use slicing::{MAX_ID, outside};

// The range, and of the device its capacity, the sum of all capacities, and the points that it has.
#[derive(Clone, Copy)]
pub struct Found {
    pub range: u64,
    pub capacity: u64,
    pub sum: u64,
    pub points: u64,
}

// The device of an id in an opened pool. 2 for an id outside 1 to 65,535; 5 where it is absent. The contract
// alone reads the table.
pub fn find_device(opened: Opened, table: &[u64; ROOM], id: u64) -> Result<Found, Refusal>
    requires { Open opened table.now }
    ensures { FoundIn (state_in opened table.now) id result }
{
    if outside(MAX_ID, id) {
        return Err(Refusal::Outside);
    }
    let Ok(row) = find(&opened.ids, opened.devices, id) else {
        return Err(Refusal::Absent);
    };
    Ok(Found {
        range: opened.range,
        capacity: opened.capacities[row],
        sum: sum(&opened.capacities, &opened.ids, opened.devices),
        points: opened.has[row],
    })
}

// The device of an id in a pool. 2 for a pool that is not valid or an id outside 1 to 65,535; 5 where it is
// absent.
pub fn find_in(pool: Pool, id: u64) -> Result<Found, Refusal>
    ensures { FoundOf pool id result }
{
    let mut table = blank();
    let Some(opened) = open(pool, &mut table) else {
        return Err(Refusal::Outside);
    };
    find_device(opened, &table, id)
}
