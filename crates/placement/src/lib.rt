// The offered changes: add, remove and resize, with the moves written into a list of structs. A pool is
// opened, which decides whether it is valid; the change is planned; one writer puts its moves into the lent
// list.
#![tactic(auto)]

ghost use Rattle.std.specs.Prelude.{◌≡◌, ◌++◌, map, ◌≤◌, ◌<◌, ◌^◌, length, drop};
ghost use Rattle.slicing.specs.Changes as Changes;
ghost use Rattle.slicing.specs.Runs.{total};
ghost use Rattle.slicing.specs.SixSteps.{moves_from};
ghost use Rattle.slicing_core.specs.Rows.{at};
ghost use Rattle.packed_runs.specs.Words.{runs, turns_of, room};
ghost use Rattle.six_steps.proofs.Renaming.{move_as};
ghost use Rattle.calls.specs.Calls.{change_of};
ghost use Rattle.refusals.specs.Replies.{number};
ghost use Rattle.placement.specs.Promises.{row_of, Changed};

use calls::{Call, plan};
use packed_runs::{LABELS, ROOM, ROWS, blank};
use pools::{Pool, close};
use refusals::Refusal;
use slicing::MAX_DEVICES;
use valid_pools::open;

// A move: `length` points from `start` on go from one device to another.
#[derive(Clone, Copy)]
pub struct Move {
    pub start: u64,
    pub length: u64,
    pub from: u64,
    pub to: u64,
}

// The answer of a call that changes a pool: the refusal number or 0, the moved points, the number of
// moves, and the pool afterwards. It has the pool in either case, as it was where the call is refused, and
// demand 3 is stated on these four, so it is no Result.
#[derive(Clone, Copy)]
pub struct ChangeAnswer {
    pub refusal: u32,
    pub moved: u64,
    pub count: usize,
    pub pool: Pool,
}

// Writes the moves of t turns, by rising start, their rows named by ids: the turns whose owner changes.
fn write_moves(turns: &[u64; ROOM], t: usize, names: &[u64; MAX_DEVICES], list: &mut [Move])
    requires { (t ≤ room) × (total (runs turns.now 0 t) < 2 ^ 48) × (length (moves_from 0 (turns_of turns.now 0 t)) ≤ length list.old) }
    ensures { list.new ≡ map row_of (map (move_as (at names.now)) (moves_from 0 (turns_of turns.now 0 t)))
        ++ drop (length (moves_from 0 (turns_of turns.now 0 t))) list.old }
{
    let mut count = 0;
    let mut start = 0;
    for i in 0..t {
        let size = turns[i] / LABELS;
        let turn = turns[i] % LABELS;
        let from = (turn / ROWS) as usize;
        let to = (turn % ROWS) as usize;
        if from != to {
            list[count] = Move {
                start,
                length: size,
                from: names[from],
                to: names[to],
            };
            count += 1;
        }
        start += size;
    }
}

// A refused change leaves the pool as it was.
fn refused(pool: Pool, refusal: Refusal) -> ChangeAnswer
    ensures { result ≡ record { refusal = number refusal; moved = 0; count = 0; pool = pool } }
{
    ChangeAnswer {
        refusal: u32::from(refusal),
        moved: 0,
        count: 0,
        pool,
    }
}

// Changes a pool, with a list for the moves. 2 for a pool that is not valid, then the refusals of `plan`.
fn change(pool: Pool, call: Call, list: &mut [Move]) -> ChangeAnswer
    ensures { Changed pool list.old (change_of call) result list.new }
{
    let mut table = blank();
    let Some(before) = open(pool, &mut table) else {
        return refused(pool, Refusal::Outside);
    };
    let mut turns = blank();
    let mut next = blank();
    let made = match plan(before, call, list.len(), &table, &mut turns, &mut next) {
        Ok(made) => made,
        Err(refusal) => return refused(pool, refusal),
    };
    write_moves(&turns, made.turns, &made.names, list);
    ChangeAnswer {
        refusal: 0,
        moved: made.moved,
        count: made.count,
        pool: close(made.after, &next),
    }
}

// Adds a device. 2 for a pool that is not valid, an id outside 1 to 65,535 or a capacity outside 1 to
// 16,000,000; 4 where the id is present; 6 where 256 devices are; 8 where the new table has over M
// intervals; 9 where the list has too few places.
pub fn add(pool: Pool, id: u64, capacity: u64, list: &mut [Move]) -> ChangeAnswer
    ensures { Changed pool list.old (Changes.add id capacity) result list.new }
{
    change(pool, Call::Add(id, capacity), list)
}

// Removes a device. 2 for a pool that is not valid or an id outside 1 to 65,535; 5 where it is absent;
// 7 where it is the only one; 8 and 9 as of an add.
pub fn remove(pool: Pool, id: u64, list: &mut [Move]) -> ChangeAnswer
    ensures { Changed pool list.old (Changes.remove id) result list.new }
{
    change(pool, Call::Remove(id), list)
}

// Gives a device another capacity. 2 as of an add; 5 where it is absent; 8 and 9 as of an add.
pub fn resize(pool: Pool, id: u64, capacity: u64, list: &mut [Move]) -> ChangeAnswer
    ensures { Changed pool list.old (Changes.resize id capacity) result list.new }
{
    change(pool, Call::Resize(id, capacity), list)
}
