// The rows that a table names, as rows come and go.
ghost use Rattle.std.specs.Prelude.{◌≡◌, ◌%◌, ◌≤◌, ◌<◌, length};
ghost use Rattle.slicing.specs.Runs.{relabel};
ghost use Rattle.packed_runs.specs.Words.{runs, room, Labelled};
ghost use Rattle.plans.specs.Labels.{raised, lowered};

use packed_runs::{LABELS, ROOM};

// Copies the q runs of a table, with the rows from p on raised by one: a row comes in at p. With p = 256
// no row changes.
pub fn raise(table: &[u64; ROOM], q: usize, p: usize, into: &mut [u64; ROOM])
    requires { (q ≤ 4096) × Labelled 256 table.now q × (length into.old ≡ room) }
    ensures q_after { runs into.new 0 q ≡ relabel (raised p) (runs table.now 0 q) }
    ensures into_len { length into.new ≡ room }
{
    let row = p as u64;
    for i in 0..q {
        let run = table[i];
        into[i] = if run % LABELS < row { run } else { run + 1 };
    }
}

// Lowers the rows above p by one: the row p, which no run has, goes.
pub fn lower(table: &mut [u64; ROOM], q: usize, p: usize)
    requires { (q ≤ 4096) × (length table.old ≡ room) }
    ensures q_after { runs table.new 0 q ≡ relabel (lowered p) (runs table.old 0 q) }
    ensures table_len { length table.new ≡ room }
{
    let row = p as u64;
    for run in table[..q].iter_mut() {
        if *run % LABELS > row {
            *run -= 1;
        }
    }
}

// Copies the q runs of `next` into the table.
pub fn renew(table: &mut [u64; ROOM], next: &[u64; ROOM], q: usize)
    requires { (q ≤ 4096) × (length table.old ≡ room) }
    ensures q_after { runs table.new 0 q ≡ runs next.now 0 q }
    ensures table_len { length table.new ≡ room }
{
    // A loop: between two arrays of the caller's `copy_from_slice` calls `memmove`, which an archive for C would then ask for.
    for i in 0..q {
        table[i] = next[i];
    }
}
