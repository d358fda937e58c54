// The copies of one block, and of many. The pool of an image that was read is valid, so the lookups are those on
// its arrays, which decide nothing again.
ghost use Rattle.std.specs.Prelude.{◌≡◌, ◌++◌, ◌*◌, ◌≤◌, length, drop};
ghost use Rattle.pools.specs.Pools.{state_of, ValidPool};
ghost use Rattle.image_lookups.specs.Promises.{CopiedOne, CopiedMany, rows_for, counted_for};

use lookup_numbers::{ROW, counters_of, put_counters, put_refusal, put_row};
use lookups::{Counters, Table};
use pools::Pool;
use refusals::Refusal;

// The copies of one block. The tally is two numbers, lookups and probes; the row is ten: the refusal number
// or 0, the eight owners, the probes. 17 where the tally has under two places or the row under ten;
// 14 to 16 as of a read; 11 where k is not within 1 to 8; 10 where no device is present; 12,
// with 256 probes, where 256 probes find fewer than k different owners.
pub fn copies(image: &[u8], block: u64, k: u64, tally: &mut [u32], row: &mut [u32]) -> u32
    ensures { CopiedOne image.now block k tally.old row.old (record { number = result; tally = tally.new; rows = row.new }) }
{
    if tally.len() < 2 || row.len() < ROW {
        return u32::from(Refusal::ShortBuffer);
    }
    let made = images::read(image);
    if made.refusal > 0 {
        put_refusal(row, made.refusal);
        return made.refusal;
    }
    let counters = counters_of(tally);
    let answer = Table::of(&made.pool).copies(block, k, counters);
    put_row(row, answer);
    put_counters(tally, answer.counters);
    answer.refusal
}

// The copies of blocks in a valid pool, a row for each.
fn copy_many(pool: Pool, blocks: &[u64], k: u64, counters: Counters, rows: &mut [u32]) -> Counters
    requires { ValidPool pool × (10 * length blocks.now ≤ length rows.old) }
    ensures value { result ≡ counted_for (state_of pool) k blocks.now counters }
    ensures rows { rows.new ≡ rows_for (state_of pool) k blocks.now ++ drop (10 * length blocks.now) rows.old }
{
    let table = Table::of(&pool);
    let mut after = counters;
    for (i, block) in blocks.iter().enumerate() {
        let answer = table.copies(*block, k, after);
        put_row(&mut rows[ROW * i..], answer);
        after = answer.counters;
    }
    after
}

// The copies of many blocks, a row of ten numbers for each, as `copies` gives it; one after another,
// each counted in the tally if accepted. 0, though rows may hold refusals. 17 where the tally has under
// two places or there are too few rows; 14 to 16 as of a read; then all stays.
pub fn copies_of_many(
    image: &[u8],
    blocks: &[u64],
    k: u64,
    tally: &mut [u32],
    rows: &mut [u32],
) -> u32
    ensures { CopiedMany image.now blocks.now k tally.old rows.old (record { number = result; tally = tally.new; rows = rows.new }) }
{
    if tally.len() < 2 || rows.len() / ROW < blocks.len() {
        return u32::from(Refusal::ShortBuffer);
    }
    let made = images::read(image);
    if made.refusal > 0 {
        return made.refusal;
    }
    let after = copy_many(made.pool, blocks, k, counters_of(tally), rows);
    put_counters(tally, after);
    0
}
