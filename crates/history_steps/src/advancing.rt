// One line of a history on an opened pool, whose validity is a fact that is carried.
ghost use Rattle.std.specs.Prelude.{◌≡◌, false, List, ℕ, Ok, length};
ghost use Rattle.opened.specs.OpenPools.{Open};
ghost use Rattle.packed_runs.specs.Words.{room};
ghost use Rattle.history_lines.specs.Lines.{range_outside};
ghost use Rattle.history_lines.specs.declared.lines.HistoryLine.TheVariants.{Range};
ghost use Rattle.history_lines.proofs.LineLimits.{Fits};
ghost use Rattle.history_steps.specs.Advances.{Advanced, changing, reading_in};

use calls::{Call, plan};
use history_lines::HistoryLine;
use opened::Opened;
use opened::making::without_devices;
use packed_runs::ROOM;
use plans::labels::renew;
use refusals::Refusal;

// The places of the list that a line's change is lent.
pub const PLACES: usize = 4096;

// What an accepted line gives: the moved points, the number of moves, and the pool afterwards. Its table
// stands in an array of its own. The history has begun: a range line was accepted.
#[derive(Clone, Copy)]
pub struct Step {
    pub moved: u64,
    pub count: usize,
    pub pool: Opened,
}

// A range line: it comes first, once. The array stays.
fn range_line(begun: bool, range: u64, limit: u64) -> Result<Step, Refusal>
    requires { range_outside range limit ≡ false }
    ensures { (pool : Opened) (table : List ℕ) → length table ≡ room → Advanced (reading_in begun pool table) (Ok (Range range limit)) result table table }
{
    if begun {
        return Err(Refusal::Misplaced);
    }
    Ok(Step {
        moved: 0,
        count: 0,
        pool: without_devices(range, limit),
    })
}

// A change line: a range line comes before it.
fn change(
    begun: bool,
    pool: Opened,
    call: Call,
    table: &mut [u64; ROOM],
    work: &mut [u64; ROOM],
    next: &mut [u64; ROOM],
) -> Result<Step, Refusal>
    requires { Open pool table.old × (length work.old ≡ room) × (length next.old ≡ room) }
    ensures advanced { Advanced (reading_in begun pool table.old) (Ok (changing call)) result table.old table.new }
    ensures work_len { (length work.new ≡ room) × (length next.new ≡ room) }
{
    if !begun {
        return Err(Refusal::Misplaced);
    }
    let made = plan(pool, call, PLACES, table, work, next)?;
    renew(table, next, made.after.intervals);
    Ok(Step {
        moved: made.moved,
        count: made.count,
        pool: made.after,
    })
}

// What a line says, on an opened pool with its table; one that was refused by its text passes its refusal on. A refused
// line leaves the table as it is. `work` and `next` are scratch.
pub fn advance(
    begun: bool,
    pool: Opened,
    said: Result<HistoryLine, Refusal>,
    table: &mut [u64; ROOM],
    work: &mut [u64; ROOM],
    next: &mut [u64; ROOM],
) -> Result<Step, Refusal>
    requires { Fits said × Open pool table.old × (length work.old ≡ room) × (length next.old ≡ room) }
    ensures advanced { Advanced (reading_in begun pool table.old) said result table.old table.new }
    ensures work_len { (length work.new ≡ room) × (length next.new ≡ room) }
{
    let line = match said {
        Ok(line) => line,
        Err(refusal) => return Err(refusal),
    };
    match line {
        HistoryLine::Range(range, limit) => range_line(begun, range, limit),
        HistoryLine::Add(id, capacity) => change(
            begun,
            pool,
            Call::Add(id, capacity),
            table,
            work,
            next,
        ),
        HistoryLine::Remove(id) => change(begun, pool, Call::Remove(id), table, work, next),
        HistoryLine::Resize(id, capacity) => change(
            begun,
            pool,
            Call::Resize(id, capacity),
            table,
            work,
            next,
        ),
    }
}
