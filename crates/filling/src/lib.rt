// Step 5: the pieces filled from a queue of devices in need: each point's old owner and its new. Knows
// nothing of capacities, pools and validity.
#![tactic(auto)]

ghost use Rattle.std.specs.Prelude.{◌≡◌, ◌+◌, ◌≤◌, ◌<◌, ◌^◌, length};
ghost use Rattle.slicing.specs.Runs.{total, coalesce};
ghost use Rattle.slicing.specs.SixSteps.{same_turn};
ghost use Rattle.slicing.specs.SixSteps.{fill as SixSteps·fill};
ghost use Rattle.slicing.proofs.Walk.{takens};
ghost use Rattle.packed_runs.specs.Words.{runs, pieces_of, turns_of, room, Labelled};

use packed_runs::{LABELS, ROOM, ROWS, TAKEN, push};
use slicing::MAX_DEVICES;

// The turns of the points of p pieces: each keeps its owner, or goes to the first device of the queue of n that
// still is in need; the contract alone reads n, as the queue has enough for all. The pieces and the queue are
// used up.
pub fn fill(
    pieces: &mut [u64; ROOM],
    p: usize,
    queue: &mut [u64; MAX_DEVICES],
    n: usize,
    turns: &mut [u64; ROOM],
) -> usize
    requires n_bound { (n ≤ 256) × (p + n ≤ room) × Labelled 512 pieces.old p × Labelled 256 queue.old n }
    requires p_bound { (total (takens (pieces_of pieces.old 0 p)) ≤ total (runs queue.old 0 n)) × (total (runs pieces.old 0 p) < 2 ^ 48) }
    requires pieces_len { (length pieces.old ≡ room) × (length queue.old ≡ 256) × (length turns.old ≡ room) }
    ensures turns { turns_of turns.new 0 result ≡ coalesce same_turn (SixSteps·fill (pieces_of pieces.old 0 p) (runs queue.old 0 n)) }
    ensures few { (result ≤ p + n) × (length turns.new ≡ room) × (length pieces.new ≡ room) }
{
    let mut count = 0;
    let mut i = 0;
    let mut j = 0;
    // A while: the piece and the device in need advance at different turns.
    while i < p {
        let size = pieces[i] / LABELS;
        let piece = pieces[i] % LABELS;
        if piece < TAKEN {
            count = push(turns, count, size, piece * (ROWS + 1));
            i += 1;
        } else if size == 0 {
            i += 1;
        } else {
            let first = queue[j];
            let need = first / LABELS;
            let turn = (piece - TAKEN) * ROWS + first % LABELS;
            if need < size {
                count = push(turns, count, need, turn);
                pieces[i] -= need * LABELS;
                j += 1;
            } else {
                count = push(turns, count, size, turn);
                queue[j] -= size * LABELS;
                i += 1;
            }
        }
    }
    count
}
