// Step 6: the joined new table; and the number of moves.
ghost use Rattle.std.specs.Prelude.{◌≡◌, ◌%◌, ◌≤◌, ◌<◌, ◌^◌, eqb, length};
ghost use Rattle.slicing.specs.Runs.{total, relabel, coalesce};
ghost use Rattle.slicing.specs.SixSteps.{new, moves_from};
ghost use Rattle.packed_runs.specs.Words.{runs, turns_of, room};

use packed_runs::{LABELS, ROOM, ROWS, push};

// The new owners of t turns. They can be more than a table may have.
pub fn new_table(turns: &[u64; ROOM], t: usize, table: &mut [u64; ROOM]) -> usize
    requires { (t ≤ room) × (total (runs turns.now 0 t) < 2 ^ 48) × (length table.old ≡ room) }
    ensures table { runs table.new 0 result ≡ coalesce eqb (relabel new (turns_of turns.now 0 t)) }
    ensures few { (result ≤ t) × (length table.new ≡ room) }
{
    let mut count = 0;
    for i in 0..t {
        let size = turns[i] / LABELS;
        let turn = turns[i] % LABELS;
        count = push(table, count, size, turn % ROWS);
    }
    count
}

// How many moves t turns make: those whose owner changes.
pub fn count_moves(turns: &[u64; ROOM], t: usize) -> usize
    requires { t ≤ room }
    ensures { result ≡ length (moves_from 0 (turns_of turns.now 0 t)) }
{
    let mut count = 0;
    // Counted by hand: as `filter(..).count()` the loop isn't vectorised, and a long history takes 1.6 % more instructions.
    for i in 0..t {
        let turn = turns[i] % LABELS;
        if turn / ROWS != turn % ROWS {
            count += 1;
        }
    }
    count
}
