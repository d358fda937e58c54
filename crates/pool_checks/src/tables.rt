// A pool's intervals as runs of the rows of their owners, what each row has of them, and whether that is its
// due.
ghost use Rattle.std.specs.Prelude.{◌≡◌, ℕ, IfSome, is_some, ◌≤◌, ◌<◌, ◌^◌, length};
ghost use Rattle.slicing.specs.Runs.{total, owned};
ghost use Rattle.slicing_core.specs.Rows.{at};
ghost use Rattle.slicing_core.specs.Stages.{Below, Ascending, Decides};
ghost use Rattle.packed_runs.specs.Words.{runs, room, Labelled};
ghost use Rattle.pool_checks.specs.Tables.{LengthAt, Rowed, RowsOf, Dealt};

use opened::devices::find;
use packed_runs::{LABELS, ROOM};
use slicing::{MAX_DEVICES, MAX_INTERVALS};

// The length of interval i of q: to the next start, that of the last to the end of the range. 0 where
// the next start is not higher, or the next owner is the same.
fn length_at(
    starts: &[u32; MAX_INTERVALS],
    owners: &[u16; MAX_INTERVALS],
    q: usize,
    range: u64,
    i: usize,
) -> u64
    requires { (i < q) × (q ≤ 4096) × (range ≤ 2 ^ 32) }
    ensures { LengthAt starts.now owners.now q range i result }
{
    let start = u64::from(starts[i]);
    if i + 1 == q {
        return range.saturating_sub(start);
    }
    if owners[i + 1] == owners[i] {
        return 0;
    }
    u64::from(starts[i + 1]).saturating_sub(start)
}

// The q intervals as runs of the rows of their owners. False where an interval has no length, its owner
// is none of the n devices, or the first does not begin at 0.
fn rows_of(
    starts: &[u32; MAX_INTERVALS],
    owners: &[u16; MAX_INTERVALS],
    q: usize,
    range: u64,
    ids: &[u64; MAX_DEVICES],
    n: usize,
    table: &mut [u64; ROOM],
) -> bool
    requires { (q ≤ 4096) × (1 ≤ range) × (range ≤ 2 ^ 32) × (n ≤ 256) × Ascending ids.now n × (length table.old ≡ room) }
    ensures rows_of { RowsOf starts.now owners.now q range ids.now n table.new result }
    ensures table_len { length table.new ≡ room }
{
    for i in 0..q {
        let size = length_at(starts, owners, q, range, i);
        if size == 0 {
            return false;
        }
        let Ok(row) = find(ids, n, u64::from(owners[i])) else {
            return false;
        };
        table[i] = size * LABELS + row as u64;
    }
    q > 0 && starts[0] == 0
}

// What each row has of a table.
fn held(table: &[u64; ROOM], q: usize) -> [u64; MAX_DEVICES]
    requires { (q ≤ 4096) × Labelled 256 table.now q × (total (runs table.now 0 q) < 2 ^ 48) }
    ensures by_index { (i : ℕ) → i < 256 → at result i ≡ owned i (runs table.now 0 q) }
    ensures result_len { length result ≡ 256 }
{
    let mut has = [0u64; MAX_DEVICES];
    for i in 0..q {
        let row = (table[i] % LABELS) as usize;
        has[row] += table[i] / LABELS;
    }
    has
}

// Whether the first n of both are the same.
fn same(has: &[u64; MAX_DEVICES], due: &[u64; MAX_DEVICES], n: usize) -> bool
    requires { n ≤ 256 }
    ensures { Decides result ((i : ℕ) → i < n → at has.now i ≡ at due.now i) }
{
    has[..n].iter().zip(&due[..n]).all(|(x, y)| x == y)
}

// What each row has of q intervals that give each of the n devices its due, and the range to them alone; none of
// others. Puts them into the array as runs of rows. Not inlined, so that its arrays are on the stack for this call alone.
#[inline(never)]
pub fn dealt(
    starts: &[u32; MAX_INTERVALS],
    owners: &[u16; MAX_INTERVALS],
    q: usize,
    range: u64,
    ids: &[u64; MAX_DEVICES],
    n: usize,
    due: &[u64; MAX_DEVICES],
    table: &mut [u64; ROOM],
) -> Option<[u64; MAX_DEVICES]>
    requires { (q ≤ 4096) × (1 ≤ range) × (range ≤ 2 ^ 32) × (n ≤ 256) × Ascending ids.now n × Below 65536 ids.now n × (length table.old ≡ room) }
    ensures fair { Decides (is_some result) (Dealt starts.now owners.now q range ids.now n due.now) }
    ensures rows { IfSome result (λ has. Rowed starts.now owners.now q range ids.now n table.new
        × ((i : ℕ) → i < n → at has i ≡ owned i (runs table.new 0 q)) × (length has ≡ 256)) }
    ensures table_len { length table.new ≡ room }
{
    if !rows_of(starts, owners, q, range, ids, n, table) {
        return None;
    }
    let has = held(table, q);
    if !same(&has, due, n) {
        return None;
    }
    Some(has)
}
