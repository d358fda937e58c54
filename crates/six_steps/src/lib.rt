// The six steps of a change on lent arrays, from (table, what each device has, what each is to have, by
// device row) to (next table, turns). One function for each stage:
//
//     quotas           step 1       what each device must release, and the queue of devices in need
//     cut              steps 2-4    the old table as pieces, kept or taken
//     filling::fill    step 5       the pieces filled from a queue: each point's old owner and its new
//     new_table        step 6       the joined new table
//     count_moves                   how many moves there are
//     steps            steps 1-6    all of them, one after the other
//
// Step 5 is the crate `filling`; how a run is one number is told in `packed_runs`. Knows nothing of
// capacities, pools and validity.
#![tactic(auto)]

pub mod cutting;
pub mod joining;
pub mod quotas;
pub mod steps;
