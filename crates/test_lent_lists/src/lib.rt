// The offered changes, each on a list of its own, which is given back by value. For test programs.
#![tactic(auto)]

ghost use Rattle.calls.specs.Calls.{change_of};
ghost use Rattle.test_lent_lists.specs.Promises.{Lends};

use calls::Call;
use packed_runs::ROOM;
use placement::{ChangeAnswer, Move};
use pools::Pool;

// An answer, and the list afterwards: the places that were lent, and blank ones after them.
#[derive(Clone, Copy)]
pub struct Lent {
    pub answer: ChangeAnswer,
    pub list: [Move; ROOM],
}

// Changes a pool, with a list of so many places, or of ROOM where more are asked for.
pub fn changed(pool: Pool, call: Call, places: usize) -> Lent
    ensures { Lends pool (change_of call) places result }
{
    let blank = Move {
        start: 7,
        length: 7,
        from: 7,
        to: 7,
    };
    let mut list = [blank; ROOM];
    let lent = &mut list[..places.min(ROOM)];
    let answer = match call {
        Call::Add(id, capacity) => placement::add(pool, id, capacity, lent),
        Call::Remove(id) => placement::remove(pool, id, lent),
        Call::Resize(id, capacity) => placement::resize(pool, id, capacity, lent),
    };
    Lent { answer, list }
}
