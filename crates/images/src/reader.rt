// Reading an image.
ghost use Rattle.std.specs.Prelude.{◌≡◌, ◌+◌, ◌*◌, ◌≤◌, IfOk, length};
ghost use Rattle.packed_runs.specs.Words.{room};
ghost use Rattle.opened.specs.OpenPools as OpenPools;
ghost use Rattle.opened.specs.OpenPools.{Open};
ghost use Rattle.pools.specs.Pools.{state_of};
ghost use Rattle.image_numbers.specs.Format as Format;
ghost use Rattle.image_numbers.specs.Format.{head_size, devices_in, intervals_in};
ghost use Rattle.images.specs.Promises.{ReadAs, answer_of};
ghost use Rattle.image_bytes.specs.RowBytes.{pool_in};

use image_bytes::rows::{device_rows, interval_rows};
use image_numbers::numbers::number;
use image_numbers::{HEAD, MARK, ROW, VERSION};
use opened::Opened;
use packed_runs::{ROOM, blank};
use pools::{Pool, PoolAnswer, fresh};
use refusals::Refusal;
use slicing::{MAX_DEVICES, MAX_INTERVALS};
use valid_pools::open_cleared;

// Whether there is room for a head, and the mark.
fn marked(image: &[u8]) -> bool
    ensures { result ≡ Format.marked image.now }
{
    image.len() >= HEAD && number::<3>(image, 0) == MARK
}

// The pool that the bytes of an image give, for n devices and q intervals.
fn described(image: &[u8], n: usize, q: usize) -> Pool
    requires n_value { (n ≡ devices_in image.now) × (q ≡ intervals_in image.now) × (n ≤ 256) × (q ≤ 4096) }
    requires image_len { length image.now ≡ head_size + 6 * n + 6 * q }
    ensures { result ≡ pool_in image.now }
{
    let range = number::<8>(image, 5);
    let limit = number::<2>(image, 13) as u32;
    // Its arrays are filled in place: a pool takes 26 KB of stack.
    let mut pool = Pool {
        range,
        limit,
        devices: n,
        ids: [0; MAX_DEVICES],
        capacities: [0; MAX_DEVICES],
        intervals: q,
        starts: [0; MAX_INTERVALS],
        owners: [0; MAX_INTERVALS],
    };
    let rows = &image[HEAD..];
    device_rows(rows, n, &mut pool.ids, &mut pool.capacities);
    let end = ROW * n;
    interval_rows(&rows[end..], q, &mut pool.starts, &mut pool.owners);
    pool
}

// The pool of an image that was read, and the same opened.
#[derive(Clone, Copy)]
pub struct ReadPool {
    pub pool: Pool,
    pub opened: Opened,
}

// The pool that an image describes, opened, with its table in an array. 14 under 19 bytes or for another
// mark, 15 for another version, 16 for any other fault.
pub fn read_open(image: &[u8], table: &mut [u64; ROOM]) -> Result<ReadPool, Refusal>
    requires { length table.old ≡ room }
    ensures read { ReadAs image.now (answer_of result) }
    ensures opened { IfOk result (λ r. Open r.opened table.new × (OpenPools.state_in r.opened table.new ≡ state_of r.pool)) }
    ensures table_len { length table.new ≡ room }
{
    if !marked(image) {
        return Err(Refusal::Unmarked);
    }
    if number::<2>(image, 3) != VERSION {
        return Err(Refusal::OtherVersion);
    }
    let n = number::<2>(image, 15) as usize;
    let q = number::<2>(image, 17) as usize;
    if n > MAX_DEVICES || q > MAX_INTERVALS || image.len() != HEAD + ROW * n + ROW * q {
        return Err(Refusal::Faulty);
    }
    let pool = described(image, n, q);
    let Some(opened) = open_cleared(pool, table) else {
        return Err(Refusal::Faulty);
    };
    Ok(ReadPool { pool, opened })
}

// The pool that an image describes; refused as by `read_open`, with a fresh pool of R = 1 and M = 1.
pub fn read(image: &[u8]) -> PoolAnswer
    ensures { ReadAs image.now result }
{
    let mut table = blank();
    match read_open(image, &mut table) {
        Ok(made) => PoolAnswer {
            refusal: 0,
            pool: made.pool,
        },
        Err(refusal) => PoolAnswer {
            refusal: u32::from(refusal),
            pool: fresh(1, 1).pool,
        },
    }
}
