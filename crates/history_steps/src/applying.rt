// One line of a history, applied to a pool by value.
ghost use Rattle.std.specs.Prelude.{◌≡◌, true, false};
ghost use Rattle.refusals.specs.Replies.{number};
ghost use Rattle.pools.specs.Pools.{pool_of};
ghost use Rattle.calls.specs.Calls.{change_of};
ghost use Rattle.slicing.specs.Changes as Changes;
ghost use Rattle.history_lines.specs.Lines.{range_outside};
ghost use Rattle.history_steps.specs.Promises.{ranged_line, ChangedLine, Said, Applied};
ghost use Rattle.history_steps.specs.Promises.{refused as refusedLine};

use crate::advancing::PLACES;
use calls::{Call, plan};
use history_lines::{HistoryLine, line};
use packed_runs::blank;
use pools::{Pool, close, fresh};
use refusals::Refusal;
use valid_pools::open;

// Whether a range line was accepted, and the pool.
#[derive(Clone, Copy)]
pub struct History {
    pub begun: bool,
    pub pool: Pool,
}

impl History {
    // Before the first line.
    pub fn new() -> Self
        ensures { result ≡ record { begun = false; pool = pool_of (Changes.fresh 1 1) } }
    {
        Self {
            begun: false,
            pool: fresh(1, 1).pool,
        }
    }
}

// What a line gives: the refusal number or 0, the moved points, the number of moves, and the history
// afterwards. The number stands beside them since a refused line gives the history back as it was.
#[derive(Clone, Copy)]
pub struct LineResult {
    pub refusal: u32,
    pub moved: u64,
    pub count: usize,
    pub history: History,
}

fn refused(history: History, refusal: Refusal) -> LineResult
    ensures { result ≡ refusedLine history (number refusal) }
{
    LineResult {
        refusal: u32::from(refusal),
        moved: 0,
        count: 0,
        history,
    }
}

// A range line: it comes first, once.
fn ranged(history: History, range: u64, limit: u64) -> LineResult
    ensures { range_outside range limit ≡ false → result ≡ ranged_line history range limit }
{
    if history.begun {
        return refused(history, Refusal::Misplaced);
    }
    LineResult {
        refusal: 0,
        moved: 0,
        count: 0,
        history: History {
            begun: true,
            pool: fresh(range, limit).pool,
        },
    }
}

// A change line: a range line comes before it. 2 for a pool that is not valid.
fn changed(history: History, call: Call) -> LineResult
    ensures { ChangedLine history (change_of call) result }
{
    if !history.begun {
        return refused(history, Refusal::Misplaced);
    }
    let mut table = blank();
    let Some(opened) = open(history.pool, &mut table) else {
        return refused(history, Refusal::Outside);
    };
    let mut work = blank();
    let mut next = blank();
    match plan(opened, call, PLACES, &table, &mut work, &mut next) {
        Ok(made) => LineResult {
            refusal: 0,
            moved: made.moved,
            count: made.count,
            history: History {
                begun: true,
                pool: close(made.after, &next),
            },
        },
        Err(refusal) => refused(history, refusal),
    }
}

// What a line says, applied to a history.
fn applied(history: History, said: Result<HistoryLine, Refusal>) -> LineResult
    ensures { Said history said result }
{
    match said {
        Ok(HistoryLine::Range(range, limit)) => ranged(history, range, limit),
        Ok(HistoryLine::Add(id, capacity)) => changed(history, Call::Add(id, capacity)),
        Ok(HistoryLine::Remove(id)) => changed(history, Call::Remove(id)),
        Ok(HistoryLine::Resize(id, capacity)) => changed(history, Call::Resize(id, capacity)),
        Err(refusal) => refused(history, refusal),
    }
}

// A line, without its line end, applied to a history. 1 and 2 as of `line`; 3 for a change line before a
// range line was accepted, and for a range line after one; then the refusals of the change, with a list
// of 4,096 places.
pub fn apply(history: History, text: &[u8]) -> LineResult
    ensures { Applied history text.now result }
{
    applied(history, line(text))
}
