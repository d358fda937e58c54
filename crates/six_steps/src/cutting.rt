// Steps 2 to 4: the old table cut into pieces, kept or taken.
ghost use Rattle.std.specs.Prelude.{◌≡◌, false, ◌*◌, ◌≤◌, ◌<◌, ◌^◌, length};
ghost use Rattle.slicing.specs.Runs.{total};
ghost use Rattle.slicing.specs.SixSteps.{end, walk};
ghost use Rattle.slicing_core.specs.Rows.{at};
ghost use Rattle.packed_runs.specs.Words.{runs, pieces_of, present, room, Labelled};

use packed_runs::{LABELS, ROOM, TAKEN, put};
use slicing::MAX_DEVICES;
use slicing_core::cuts::cut_interval;

// The pieces of the q runs of the table that are not empty. `release` has what each owner must release
// and is used up.
pub fn cut(
    table: &[u64; ROOM],
    q: usize,
    release: &mut [u64; MAX_DEVICES],
    pieces: &mut [u64; ROOM],
) -> usize
    requires q_bound { (q ≤ 4096) × Labelled 256 table.now q × (total (runs table.now 0 q) < 2 ^ 48) }
    requires release_len { (length release.old ≡ 256) × (length pieces.old ≡ room) }
    ensures pieces { pieces_of pieces.new 0 result ≡ present (walk (at release.old) end false (runs table.now 0 q)) }
    ensures few { (result ≤ 2 * q) × Labelled 512 pieces.new result × (length pieces.new ≡ room) }
{
    let mut count = 0;
    let mut flag = false;
    let mut touch = false;
    for i in 0..q {
        let size = table[i] / LABELS;
        let owner = table[i] % LABELS;
        let row = owner as usize;
        let have = release[row];
        if have == 0 {
            count = put(pieces, count, size, owner);
            touch = false;
        } else {
            let c = cut_interval(have, size, flag, touch);
            release[row] = have - c.gap;
            count = put(pieces, count, c.front, owner);
            count = put(pieces, count, c.gap, owner + TAKEN);
            count = put(pieces, count, c.back, owner);
            flag = c.flag;
            touch = c.touch;
        }
    }
    count
}
