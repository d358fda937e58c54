// The rows of an image: six bytes each.
ghost use Rattle.std.specs.Prelude.{◌≡◌, ◌++◌, ◌+◌, ◌*◌, ◌≤◌, length, take, drop};
ghost use Rattle.image_numbers.specs.Format.{column};
ghost use Rattle.image_bytes.specs.RowBytes.{pair_bytes, short_place, long_place, row_bytes, rows_bytes};

use image_numbers::ROW;
use image_numbers::numbers::{number, put};
use slicing::{MAX_DEVICES, MAX_INTERVALS};

// What stands in a row: of a device its id and its capacity, of an interval its start and its owner. Ids and
// owners are short numbers, in two bytes, capacities and starts long ones, in four.
#[derive(Clone, Copy)]
enum Row {
    Device,
    Interval,
}

// The places of the short number and of the long one in a row.
fn places(row: Row) -> (usize, usize)
    ensures at { (result.0 ≡ short_place row) × (result.1 ≡ long_place row) }
    ensures room { (result.0 + 2 ≤ 6) × (result.1 + 4 ≤ 6) }
{
    match row {
        Row::Device => (0, 2),
        Row::Interval => (4, 0),
    }
}

// Reads n rows into two arrays.
fn read_columns(rows: &[u8], n: usize, row: Row, shorts: &mut [u16], longs: &mut [u32])
    requires { (6 * n ≤ length rows.now) × (n ≤ length shorts.old) × (n ≤ length longs.old) }
    ensures shorts { shorts.new ≡ column rows.now 2 (short_place row) n ++ drop n shorts.old }
    ensures longs { longs.new ≡ column rows.now 4 (long_place row) n ++ drop n longs.old }
{
    let (short, long) = places(row);
    for i in 0..n {
        shorts[i] = number::<2>(rows, ROW * i + short) as u16;
        longs[i] = number::<4>(rows, ROW * i + long) as u32;
    }
}

// Reads n device rows into the columns of a pool.
pub fn device_rows(
    rows: &[u8],
    n: usize,
    ids: &mut [u16; MAX_DEVICES],
    capacities: &mut [u32; MAX_DEVICES],
)
    requires { (6 * n ≤ length rows.now) × (n ≤ length ids.old) × (n ≤ length capacities.old) }
    ensures ids { ids.new ≡ column rows.now 2 0 n ++ drop n ids.old }
    ensures capacities { capacities.new ≡ column rows.now 4 2 n ++ drop n capacities.old }
{
    read_columns(rows, n, Row::Device, ids, capacities);
}

// Reads q interval rows into the columns of a pool.
pub fn interval_rows(
    rows: &[u8],
    q: usize,
    starts: &mut [u32; MAX_INTERVALS],
    owners: &mut [u16; MAX_INTERVALS],
)
    requires { (6 * q ≤ length rows.now) × (q ≤ length starts.old) × (q ≤ length owners.old) }
    ensures starts { starts.new ≡ column rows.now 4 0 q ++ drop q starts.old }
    ensures owners { owners.new ≡ column rows.now 2 4 q ++ drop q owners.old }
{
    read_columns(rows, q, Row::Interval, owners, starts);
}

// Writes a row from place i on.
fn put_row(rows: &mut [u8], i: usize, row: Row, short: u16, long: u32)
    requires { i + 6 ≤ length rows.old }
    ensures { rows.new ≡ take i rows.old ++ row_bytes row short long ++ drop (i + 6) rows.old }
{
    let (short_place, long_place) = places(row);
    put::<2>(rows, i + short_place, u64::from(short));
    put::<4>(rows, i + long_place, u64::from(long));
}

// Writes n rows from two arrays.
fn put_columns(rows: &mut [u8], n: usize, row: Row, shorts: &[u16], longs: &[u32])
    requires { (6 * n ≤ length rows.old) × (n ≤ length shorts.now) × (n ≤ length longs.now) }
    ensures { rows.new ≡ rows_bytes row shorts.now longs.now 0 n ++ drop (6 * n) rows.old }
{
    for i in 0..n {
        put_row(rows, ROW * i, row, shorts[i], longs[i]);
    }
}

// Writes n device rows.
pub fn put_devices(
    rows: &mut [u8],
    ids: &[u16; MAX_DEVICES],
    capacities: &[u32; MAX_DEVICES],
    n: usize,
)
    requires { (n ≤ 256) × (6 * n ≤ length rows.old) }
    ensures { rows.new ≡ pair_bytes 2 4 ids.now capacities.now 0 n ++ drop (6 * n) rows.old }
{
    put_columns(rows, n, Row::Device, ids, capacities);
}

// Writes q interval rows.
pub fn put_intervals(
    rows: &mut [u8],
    starts: &[u32; MAX_INTERVALS],
    owners: &[u16; MAX_INTERVALS],
    q: usize,
)
    requires { (q ≤ 4096) × (6 * q ≤ length rows.old) }
    ensures { rows.new ≡ pair_bytes 4 2 starts.now owners.now 0 q ++ drop (6 * q) rows.old }
{
    put_columns(rows, q, Row::Interval, owners, starts);
}
