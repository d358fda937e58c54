// Runs in a lent array, of which nothing is read before it is written.
//
// A run is one number, size × 65,536 + label. An owner is its row among the devices, 0 to 255. The label
// of a piece is its owner, and 256 more where it is taken; that of a turn is old × 256 + new.
#![tactic(auto)]

ghost use Rattle.std.specs.Prelude.{◌≡◌, ◌+◌, ◌*◌, ◌≤◌, ◌<◌, ◌^◌, min, length};
ghost use Rattle.slicing.specs.Runs.{total};
ghost use Rattle.packed_runs.specs.Words.{runs, room};
ghost use Rattle.packed_runs.specs.Stages.{Held, Put, Pushed};

// Two runs for each of 4,096 intervals, and one for each of 256 devices.
pub const ROOM: usize = 8448;

// A run is size × LABELS + label.
pub const LABELS: u64 = 65536;

// The label of a turn is old × ROWS + new.
pub const ROWS: u64 = 256;

// The label of a piece is its owner, and TAKEN more where it is taken.
pub const TAKEN: u64 = 256;

// An array for a table, for pieces or for turns.
pub fn blank() -> [u64; ROOM]
    ensures { length result ≡ room }
{
    [0; ROOM]
}

// Puts a run behind the n runs, unless it is empty, and answers how many there are.
pub fn put(into: &mut [u64; ROOM], n: usize, size: u64, label: u64) -> usize
    requires { (length into.old ≡ room) × (n + min 1 size ≤ room) × (size < 2 ^ 48) × (label < 65536) }
    ensures { Put into.old n size label into.new result }
{
    if size == 0 {
        return n;
    }
    into[n] = size * LABELS + label;
    n + 1
}

// The same, joined to the last run where that has the same label.
pub fn push(into: &mut [u64; ROOM], n: usize, size: u64, label: u64) -> usize
    requires { Held into.old n (min 1 size) × (total (runs into.old 0 n) + size < 2 ^ 48) × (label < 65536) }
    ensures { Pushed into.old n size label into.new result }
{
    if size == 0 {
        return n;
    }
    if n > 0 && into[n - 1] % LABELS == label {
        into[n - 1] += size * LABELS;
        return n;
    }
    into[n] = size * LABELS + label;
    n + 1
}
