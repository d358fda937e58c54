// Copies as rows of ten numbers, and counters as a tally of two.
ghost use Rattle.std.specs.Prelude.{◌≡◌, ◌∷◌, ◌++◌, ◌≤◌, length, take, drop, replicate};
ghost use Rattle.lookup_numbers.specs.Told.{counters_in, tally_of};

use lookups::{CopiesAnswer, Counters};

// Puts eight owners behind the number of a row.
fn put_owners(row: &mut [u32], owners: &[u16; 8])
    requires { (10 ≤ length row.old) × (length owners.now ≡ 8) }
    ensures { row.new ≡ take 1 row.old ++ owners.now ++ drop 9 row.old }
{
    for (i, owner) in owners.iter().enumerate() {
        row[i + 1] = u32::from(*owner);
    }
}

// Puts an answer into the first row.
pub fn put_row(row: &mut [u32], answer: CopiesAnswer)
    requires { 10 ≤ length row.old }
    ensures { row.new ≡ answer.refusal ∷ answer.owners ++ answer.probes ∷ drop 10 row.old }
{
    row[0] = answer.refusal;
    put_owners(row, &answer.owners);
    row[9] = answer.probes;
}

// Puts the row of a refused call.
pub fn put_refusal(row: &mut [u32], refusal: u32)
    requires { 10 ≤ length row.old }
    ensures { row.new ≡ refusal ∷ replicate 9 0 ++ drop 10 row.old }
{
    row[0] = refusal;
    put_owners(row, &[0; 8]);
    row[9] = 0;
}

// The counters of a tally.
pub fn counters_of(tally: &[u32]) -> Counters
    requires { 2 ≤ length tally.now }
    ensures { result ≡ counters_in tally.now }
{
    Counters {
        lookups: tally[0],
        probes: tally[1],
    }
}

pub fn put_counters(tally: &mut [u32], counters: Counters)
    requires { 2 ≤ length tally.old }
    ensures { tally.new ≡ tally_of counters tally.old }
{
    tally[0] = counters.lookups;
    tally[1] = counters.probes;
}
