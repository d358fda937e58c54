// The writer of a plan's moves as flat numbers, four a move. For callers that have no structs.
#![tactic(auto)]

ghost use Rattle.std.specs.Prelude.{◌≡◌, [], ◌∷◌, ◌++◌, map, ◌+◌, ◌*◌, ◌≤◌, ◌<◌, ◌^◌, length, take, drop};
ghost use Rattle.slicing.specs.Runs.{total};
ghost use Rattle.slicing.specs.SixSteps.{moves_from};
ghost use Rattle.slicing_core.specs.Rows.{at};
ghost use Rattle.packed_runs.specs.Words.{runs, turns_of, room};
ghost use Rattle.six_steps.proofs.Renaming.{move_as};
ghost use Rattle.flat_moves.specs.FlatMoves.{flat};

use packed_runs::{LABELS, ROOM, ROWS};
use slicing::MAX_DEVICES;

// Puts a move, four numbers, in place `place` of a list.
fn put_move(list: &mut [u64], place: usize, start: u64, size: u64, from: u64, to: u64)
    requires { 4 * place + 4 ≤ length list.old }
    ensures { list.new ≡ take (4 * place) list.old ++ (start ∷ size ∷ from ∷ to ∷ []) ++ drop (4 * place + 4) list.old }
{
    let i = 4 * place;
    list[i..i + 4].copy_from_slice(&[start, size, from, to]);
}

// Writes the moves of t turns, by rising start, their rows named by ids: the turns whose owner changes.
pub fn write_moves(turns: &[u64; ROOM], t: usize, names: &[u64; MAX_DEVICES], list: &mut [u64])
    requires { (t ≤ room) × (total (runs turns.now 0 t) < 2 ^ 48) × (4 * length (moves_from 0 (turns_of turns.now 0 t)) ≤ length list.old) }
    ensures { list.new ≡ flat (map (move_as (at names.now)) (moves_from 0 (turns_of turns.now 0 t)))
        ++ drop (4 * length (moves_from 0 (turns_of turns.now 0 t))) list.old }
{
    let mut count = 0;
    let mut start = 0;
    for i in 0..t {
        let size = turns[i] / LABELS;
        let turn = turns[i] % LABELS;
        let from = (turn / ROWS) as usize;
        let to = (turn % ROWS) as usize;
        if from != to {
            put_move(list, count, start, size, names[from], names[to]);
            count += 1;
        }
        start += size;
    }
}
