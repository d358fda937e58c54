// Lookups in the pool that an image describes, and in a pool that was opened from one.
ghost use Rattle.image_lookups.specs.Promises.{Owned, CopiedOne, CopiedMany};
ghost use Rattle.opened_lookups.specs.Promises.{OpenedFrom, OwnedIn, CopiedOneIn};

use slicing::MAX_INTERVALS;

// The owner of a point; answer: its id. 14 to 16 as of `gorvyts_check`; 13 where the point is at or above the
// range, then 10 where no device is present.
#[unsafe(no_mangle)]
pub extern "C" fn gorvyts_owner(image: &[u8], point: u64, answer: &mut [u64]) -> u32
    ensures { Owned image.now point answer.old (record { number = result; places = answer.new }) }
{
    image_lookups::owner(image, point, &mut *answer)
}

// The copies of one block. The tally is two numbers, lookups and probes; the row is ten: the refusal number
// or 0, the eight owners, the probes. 17 where the tally has under two places or the row under ten;
// 14 to 16 as of `gorvyts_check`; 11 where k is not within 1 to 8; 10 where no device is present; 12,
// with 256 probes, where 256 probes find fewer than k different owners.
#[unsafe(no_mangle)]
pub extern "C" fn gorvyts_copies(
    image: &[u8],
    block: u64,
    k: u64,
    tally: &mut [u32],
    row: &mut [u32],
) -> u32
    ensures { CopiedOne image.now block k tally.old row.old (record { number = result; tally = tally.new; rows = row.new }) }
{
    image_lookups::copies(image, block, k, &mut *tally, &mut *row)
}

// The copies of many blocks, a row of ten numbers for each, as `gorvyts_copies` gives it; one after another,
// each counted in the tally if accepted. 0, though rows may hold refusals. 17 where the tally has under
// two places or there are too few rows; 14 to 16 as of `gorvyts_check`; then all stays.
#[unsafe(no_mangle)]
pub extern "C" fn gorvyts_copies_of_many(
    image: &[u8],
    blocks: &[u64],
    k: u64,
    tally: &mut [u32],
    rows: &mut [u32],
) -> u32
    ensures { CopiedMany image.now blocks.now k tally.old rows.old (record { number = result; tally = tally.new; rows = rows.new }) }
{
    image_lookups::copies_of_many(image, blocks, k, &mut *tally, &mut *rows)
}

// Opens an image: the first 4,096 places of `starts` and `owners` become the pool's own, unused ones 0; numbers:
// range, intervals, devices. 17 where the arrays have under 4,096 places or the numbers under three,
// then all stays; 14 to 16 as of `gorvyts_check`, then the numbers are zeros and the arrays stay.
#[unsafe(no_mangle)]
pub extern "C" fn gorvyts_open(
    image: &[u8],
    starts: &mut [u32],
    owners: &mut [u16],
    numbers: &mut [u64],
) -> u32
    ensures { OpenedFrom image.now starts.old owners.old numbers.old
        (record { number = result; starts = starts.new; owners = owners.new; numbers = numbers.new }) }
{
    opened_lookups::open(image, &mut *starts, &mut *owners, &mut *numbers)
}

// The owner of a point of an opened pool; answer: its id. 13 where the point is at or above the range, then 10
// where no device is present.
#[unsafe(no_mangle)]
pub extern "C" fn gorvyts_owner_in<'a>(
    starts: &'a [u32; MAX_INTERVALS],
    owners: &'a [u16; MAX_INTERVALS],
    numbers: &'a [u64; 3],
    point: u64,
    answer: &mut [u64],
) -> u32
    ensures { OwnedIn starts.now owners.now numbers.now point answer.old
        (record { number = result; places = answer.new }) }
{
    opened_lookups::opened_owner(starts, owners, numbers, point, &mut *answer)
}

// The copies of one block of an opened pool; tally and row as of `gorvyts_copies`. 17 where the tally has under
// two places or the row under ten; 11, 10 and 12 as of `gorvyts_copies`.
#[unsafe(no_mangle)]
pub extern "C" fn gorvyts_copies_in<'a>(
    starts: &'a [u32; MAX_INTERVALS],
    owners: &'a [u16; MAX_INTERVALS],
    numbers: &'a [u64; 3],
    block: u64,
    k: u64,
    tally: &mut [u32],
    row: &mut [u32],
) -> u32
    ensures { CopiedOneIn starts.now owners.now numbers.now block k tally.old row.old
        (record { number = result; tally = tally.new; rows = row.new }) }
{
    opened_lookups::opened_copies(starts, owners, numbers, block, k, &mut *tally, &mut *row)
}
