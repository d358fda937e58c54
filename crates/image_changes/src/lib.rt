// Changes of a pool: from its image to the image of the changed pool, the moves as flat numbers. For callers
// that have neither structs nor anything to hold a pool in. The answer is a number, beside places filled in the
// caller's memory, and no Result: C gets it so.
#![tactic(auto)]

ghost use Rattle.std.specs.Prelude.{◌≡◌, ◌≤◌, length};
ghost use Rattle.opened.specs.OpenPools.{state_in, Open};
ghost use Rattle.calls.specs.Calls.{change_of};
ghost use Rattle.image_changes.specs.Promises.{Changed, moved_as};

use answers::put;
use calls::{Call, plan};
use flat_moves::write_moves;
use opened::Opened;
use packed_runs::{ROOM, blank};
use pools::close;
use refusals::Refusal;

// A change of an opened pool, whose table is `table`. It is planned with no list, so that the list stays
// where the new image does not fit. Not inlined: its arrays, 200 KB, are not on the stack while the image is read.
#[inline(never)]
fn change(
    before: Opened,
    table: &[u64; ROOM],
    call: Call,
    next: &mut [u8],
    list: &mut [u64],
    answer: &mut [u64],
) -> u32
    requires { Open before table.now × (3 ≤ length answer.old) }
    ensures { record { number = result; image = next.new; list = list.new; answer = answer.new } ≡
        moved_as (change_of call) next.old list.old answer.old (state_in before table.now) }
{
    let mut turns = blank();
    let mut after_table = blank();
    let made = match plan(
        before,
        call,
        list.len() / 4,
        table,
        &mut turns,
        &mut after_table,
    ) {
        Ok(made) => made,
        Err(refusal) => {
            put(answer, [0; 3]);
            return u32::from(refusal);
        }
    };
    let pool = close(made.after, &after_table);
    let Ok(size) = images::store(pool, next) else {
        put(answer, [0; 3]);
        return u32::from(Refusal::ShortBuffer);
    };
    write_moves(&turns, made.turns, &made.names, list);
    put(answer, [size as u64, made.moved, made.count as u64]);
    0
}

// A change of the pool that an image describes: the new image goes to `next`, the moves, four numbers each,
// to `list`; answer: the length of the new image, the moved points, the number of moves. 17 for an answer
// of under three places; 14 to 16 as of a read; then the refusals of the change; 17 where the new image
// does not fit.
pub fn change_image(
    image: &[u8],
    call: Call,
    next: &mut [u8],
    list: &mut [u64],
    answer: &mut [u64],
) -> u32
    ensures { Changed image.now (change_of call) next.old list.old answer.old
        (record { number = result; image = next.new; list = list.new; answer = answer.new }) }
{
    if answer.len() < 3 {
        return u32::from(Refusal::ShortBuffer);
    }
    let mut table = blank();
    match images::read_open(image, &mut table) {
        Ok(made) => change(made.opened, &table, call, next, list, answer),
        Err(refusal) => {
            put(answer, [0; 3]);
            u32::from(refusal)
        }
    }
}
