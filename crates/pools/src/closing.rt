// An opened pool closed: its arrays filled from the rows and the runs, unused places 0.
ghost use Rattle.std.specs.Prelude.{◌≡◌, ℕ, ◌/◌, ◌≤◌, ◌<◌, length, take};
ghost use Rattle.slicing.specs.Runs.{total, relabel};
ghost use Rattle.slicing_core.specs.Rows.{at};
ghost use Rattle.slicing_core.specs.Stages.{Below};
ghost use Rattle.pools.specs.Pools.{padded, starts_of, pool_of};
ghost use Rattle.pools.specs.Pools.{owners_of as owners_in};
ghost use Rattle.packed_runs.specs.Words.{runs, Labelled};
ghost use Rattle.opened.specs.OpenPools.{state_in, Open};

use crate::Pool;
use opened::Opened;
use packed_runs::{LABELS, ROOM};
use slicing::{MAX_DEVICES, MAX_INTERVALS};

// A pool's columns of devices.
#[derive(Clone, Copy)]
struct Columns {
    ids: [u16; MAX_DEVICES],
    capacities: [u32; MAX_DEVICES],
}

// The ids and capacities of n devices.
fn narrow(ids: &[u64; MAX_DEVICES], capacities: &[u64; MAX_DEVICES], n: usize) -> Columns
    requires n_bound { (n ≤ 256) × Below 65536 ids.now n × Below 4294967296 capacities.now n }
    requires ids_len { (length ids.now ≡ 256) × (length capacities.now ≡ 256) }
    ensures ids { result.ids ≡ padded 256 (take n ids.now) }
    ensures capacities { result.capacities ≡ padded 256 (take n capacities.now) }
{
    let mut columns = Columns {
        ids: [0; MAX_DEVICES],
        capacities: [0; MAX_DEVICES],
    };
    for i in 0..n {
        columns.ids[i] = ids[i] as u16;
        columns.capacities[i] = capacities[i] as u32;
    }
    columns
}

// The starts of the q runs, the first at point 0.
fn starts_of(table: &[u64; ROOM], q: usize) -> [u32; MAX_INTERVALS]
    requires { (q ≤ 4096) × (total (runs table.now 0 q) ≤ 4294967296) × ((i : ℕ) → i < q → 1 ≤ at table.now i / 65536) }
    ensures { result ≡ padded 4096 (starts_of 0 (runs table.now 0 q)) }
{
    let mut into = [0u32; MAX_INTERVALS];
    let mut start = 0;
    for i in 0..q {
        into[i] = start as u32;
        start += table[i] / LABELS;
    }
    into
}

// The owners of the q runs, by the ids of their rows, of which there are n; the contract alone reads that.
fn owners_of(
    table: &[u64; ROOM],
    q: usize,
    ids: &[u64; MAX_DEVICES],
    n: usize,
) -> [u16; MAX_INTERVALS]
    requires { (q ≤ 4096) × (n ≤ 256) × Labelled n table.now q × Below 65536 ids.now n }
    ensures { result ≡ padded 4096 (owners_in (relabel (at ids.now) (runs table.now 0 q))) }
{
    let mut into = [0u16; MAX_INTERVALS];
    for i in 0..q {
        let row = (table[i] % LABELS) as usize;
        into[i] = ids[row] as u16;
    }
    into
}

// The pool that an opened pool holds. Not inlined: its arrays, 50 KB, are on the stack for this call alone.
#[inline(never)]
pub fn close(opened: Opened, table: &[u64; ROOM]) -> Pool
    requires { Open opened table.now }
    ensures { result ≡ pool_of (state_in opened table.now) }
{
    let n = opened.devices;
    let q = opened.intervals;
    let Columns { ids, capacities } = narrow(&opened.ids, &opened.capacities, n);
    Pool {
        range: opened.range,
        limit: opened.limit as u32,
        devices: n,
        ids,
        capacities,
        intervals: q,
        starts: starts_of(table, q),
        owners: owners_of(table, q, &opened.ids, n),
    }
}
