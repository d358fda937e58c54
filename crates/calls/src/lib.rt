// The three calls for a change, planned on an opened pool.
#![tactic(auto)]

ghost use Rattle.std.specs.Prelude.{◌≡◌, length};
ghost use Rattle.slicing.specs.Changes as Changes;
ghost use Rattle.packed_runs.specs.Words.{room};
ghost use Rattle.opened.specs.OpenPools.{state_in, Open};
ghost use Rattle.plans.specs.Plans.{Planned};
ghost use Rattle.calls.specs.Calls.{change_of};

use opened::Opened;
use opened::devices::{find, shared};
use packed_runs::ROOM;
use plans::first::first;
use plans::labels::raise;
use plans::settling::settle;
use plans::{Plan, Rows};
use refusals::Refusal;
use slicing::{MAX_DEVICES, MAX_ID, device_outside, outside};
use slicing_core::devices::{delete_row, insert_row};

// The row of none: where no row comes in, or none goes.
const NO_ROW: usize = 256;

// A call for a change, with its arguments.
#[derive(Clone, Copy)]
pub enum Call {
    Add(u64, u64),
    Remove(u64),
    Resize(u64, u64),
}

// A device more. 2 for an id or a capacity outside its limits, 4 where the id is present, 6 where 256 devices
// are; 8 and 9 are those of `settle`. No row goes: 256 is the number of none.
fn add(
    before: Opened,
    id: u64,
    capacity: u64,
    places: usize,
    table: &[u64; ROOM],
    work: &mut [u64; ROOM],
    next: &mut [u64; ROOM],
) -> Result<Plan, Refusal>
    requires { Open before table.now × (length work.old ≡ room) × (length next.old ≡ room) }
    ensures planned { Planned (λ lent. Changes.change (state_in before table.now) lent (Changes.add id capacity)) places result work.new next.new }
    ensures work_len { (length work.new ≡ room) × (length next.new ≡ room) }
{
    if device_outside(id, capacity) {
        return Err(Refusal::Outside);
    }
    let n = before.devices;
    let Err(row) = find(&before.ids, n, id) else {
        return Err(Refusal::Present);
    };
    if n >= MAX_DEVICES {
        return Err(Refusal::Full);
    }
    if n == 0 {
        return Ok(first(before, id, capacity, next));
    }
    let names = insert_row(&before.ids, n, row, id);
    let grown = insert_row(&before.capacities, n, row, capacity);
    let after = shared(before, n + 1, &names, &grown);
    raise(table, before.intervals, row, &mut *work);
    let due = after.has;
    let rows = Rows {
        count: n + 1,
        gone: NO_ROW,
        names,
        has: insert_row(&before.has, n, row, 0),
        due,
    };
    settle(before, after, rows, places, work, next)
}

// A device less. 2 for an id outside its limits, 5 where it is absent, 7 where it is the only one.
fn remove(
    before: Opened,
    id: u64,
    places: usize,
    table: &[u64; ROOM],
    work: &mut [u64; ROOM],
    next: &mut [u64; ROOM],
) -> Result<Plan, Refusal>
    requires { Open before table.now × (length work.old ≡ room) × (length next.old ≡ room) }
    ensures planned { Planned (λ lent. Changes.change (state_in before table.now) lent (Changes.remove id)) places result work.new next.new }
    ensures work_len { (length work.new ≡ room) × (length next.new ≡ room) }
{
    if outside(MAX_ID, id) {
        return Err(Refusal::Outside);
    }
    let n = before.devices;
    let Ok(row) = find(&before.ids, n, id) else {
        return Err(Refusal::Absent);
    };
    if n <= 1 {
        return Err(Refusal::OnlyDevice);
    }
    let ids = delete_row(&before.ids, n, row);
    let fewer = delete_row(&before.capacities, n, row);
    let after = shared(before, n - 1, &ids, &fewer);
    raise(table, before.intervals, NO_ROW, &mut *work);
    let rows = Rows {
        count: n,
        gone: row,
        names: before.ids,
        has: before.has,
        due: insert_row(&after.has, n - 1, row, 0),
    };
    settle(before, after, rows, places, work, next)
}

// Another capacity of a device. 2 as for an add, 5 where the id is absent.
fn resize(
    before: Opened,
    id: u64,
    capacity: u64,
    places: usize,
    table: &[u64; ROOM],
    work: &mut [u64; ROOM],
    next: &mut [u64; ROOM],
) -> Result<Plan, Refusal>
    requires { Open before table.now × (length work.old ≡ room) × (length next.old ≡ room) }
    ensures planned { Planned (λ lent. Changes.change (state_in before table.now) lent (Changes.resize id capacity)) places result work.new next.new }
    ensures work_len { (length work.new ≡ room) × (length next.new ≡ room) }
{
    if device_outside(id, capacity) {
        return Err(Refusal::Outside);
    }
    let n = before.devices;
    let Ok(row) = find(&before.ids, n, id) else {
        return Err(Refusal::Absent);
    };
    let mut capacities = before.capacities;
    capacities[row] = capacity;
    let after = shared(before, n, &before.ids, &capacities);
    raise(table, before.intervals, NO_ROW, &mut *work);
    let due = after.has;
    let rows = Rows {
        count: n,
        gone: NO_ROW,
        names: before.ids,
        has: before.has,
        due,
    };
    settle(before, after, rows, places, work, next)
}

// The plan of a change of an opened pool, whose table is `table`, with a list of so many places: what an
// answer says, `work` with the turns of the points, and `next` with the table afterwards. The opened pool
// and its table stay.
pub fn plan(
    before: Opened,
    call: Call,
    places: usize,
    table: &[u64; ROOM],
    work: &mut [u64; ROOM],
    next: &mut [u64; ROOM],
) -> Result<Plan, Refusal>
    requires { Open before table.now × (length work.old ≡ room) × (length next.old ≡ room) }
    ensures planned { Planned (λ lent. Changes.change (state_in before table.now) lent (change_of call)) places result work.new next.new }
    ensures work_len { (length work.new ≡ room) × (length next.new ≡ room) }
{
    match call {
        Call::Add(id, capacity) => add(before, id, capacity, places, table, work, next),
        Call::Remove(id) => remove(before, id, places, table, work, next),
        Call::Resize(id, capacity) => resize(before, id, capacity, places, table, work, next),
    }
}
