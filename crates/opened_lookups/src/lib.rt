// An opened pool: the arrays of the pool that an image describes, in memory of the caller's, and lookups on them.
// The image is read and checked once; a lookup then decides nothing, and any contents of the arrays get an answer.
#![tactic(auto)]

ghost use Rattle.slicing_core.specs.Rows.{at};
ghost use Rattle.lookups.specs.Promises.{TableOf};
ghost use Rattle.opened_lookups.specs.Promises.{OpenedFrom, OwnedIn, CopiedOneIn};

use answers::put;
use lookup_numbers::{ROW, counters_of, put_counters, put_owner, put_row};
use lookups::{Columns, Table};
use refusals::Refusal;
use slicing::MAX_INTERVALS;

// Opens an image: the first 4,096 places of `starts` and `owners` become the pool's own, unused ones 0; numbers:
// range, intervals, devices. 17 where the arrays have under 4,096 places or the numbers under three,
// then all stays; 14 to 16 as of a read, then the numbers are zeros and the arrays stay.
pub fn open(image: &[u8], starts: &mut [u32], owners: &mut [u16], numbers: &mut [u64]) -> u32
    ensures { OpenedFrom image.now starts.old owners.old numbers.old
        (record { number = result; starts = starts.new; owners = owners.new; numbers = numbers.new }) }
{
    if starts.len() < MAX_INTERVALS || owners.len() < MAX_INTERVALS || numbers.len() < 3 {
        return u32::from(Refusal::ShortBuffer);
    }
    let made = images::read(image);
    if made.refusal > 0 {
        put(numbers, [0; 3]);
        return made.refusal;
    }
    let pool = made.pool;
    starts[..MAX_INTERVALS].copy_from_slice(&pool.starts);
    owners[..MAX_INTERVALS].copy_from_slice(&pool.owners);
    put(
        numbers,
        [pool.range, pool.intervals as u64, pool.devices as u64],
    );
    0
}

// The table of an opened pool, whose arrays the C interface hands one by one.
fn table_of<'a>(
    starts: &'a [u32; MAX_INTERVALS],
    owners: &'a [u16; MAX_INTERVALS],
    numbers: &'a [u64; 3],
) -> Table<'a>
    ensures { TableOf result starts.now owners.now (at numbers.now 1) (at numbers.now 2) (at numbers.now 0) }
{
    Table {
        columns: Columns {
            starts,
            owners,
            intervals: numbers[1] as usize,
        },
        devices: numbers[2] as usize,
        range: numbers[0],
    }
}

// The owner of a point of an opened pool; answer: its id. 13 where the point is at or above the range, then 10
// where no device is present.
pub fn opened_owner(
    starts: &[u32; MAX_INTERVALS],
    owners: &[u16; MAX_INTERVALS],
    numbers: &[u64; 3],
    point: u64,
    answer: &mut [u64],
) -> u32
    ensures { OwnedIn starts.now owners.now numbers.now point answer.old
        (record { number = result; places = answer.new }) }
{
    if answer.is_empty() {
        return u32::from(Refusal::ShortBuffer);
    }
    let found = table_of(starts, owners, numbers).owner(point);
    put_owner(answer, found)
}

// The copies of one block of an opened pool; tally and row as of `copies`. 17 where the tally has under
// two places or the row under ten; 11, 10 and 12 as of `copies`.
pub fn opened_copies(
    starts: &[u32; MAX_INTERVALS],
    owners: &[u16; MAX_INTERVALS],
    numbers: &[u64; 3],
    block: u64,
    k: u64,
    tally: &mut [u32],
    row: &mut [u32],
) -> u32
    ensures { CopiedOneIn starts.now owners.now numbers.now block k tally.old row.old
        (record { number = result; tally = tally.new; rows = row.new }) }
{
    if tally.len() < 2 || row.len() < ROW {
        return u32::from(Refusal::ShortBuffer);
    }
    let counters = counters_of(tally);
    let answer = table_of(starts, owners, numbers).copies(block, k, counters);
    put_row(row, answer);
    put_counters(tally, answer.counters);
    answer.refusal
}
