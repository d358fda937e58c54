// For bench/lookups.
use crate::checksums::mix;
use lookups::{Columns, Counters, Table};
use slicing::MAX_INTERVALS;

// A checksum with the first three of a list of owners.
fn mix_owners(x: u64, owners: &[u16; 8]) -> u64 {
    mix(
        mix(mix(x, u64::from(owners[0])), u64::from(owners[1])),
        u64::from(owners[2]),
    )
}

// Three copies of each of the blocks 0 to count - 1, with one pair of counters. The checksum of what
// each lookup answers.
#[unsafe(no_mangle)]
pub extern "C" fn bench_lookups_run(
    starts: &[u32; MAX_INTERVALS],
    owners: &[u16; MAX_INTERVALS],
    intervals: usize,
    devices: usize,
    range: u64,
    count: u64,
) -> u64 {
    let table = Table {
        columns: Columns {
            starts,
            owners,
            intervals,
        },
        devices,
        range,
    };
    let mut counters = Counters::new();
    let mut sum = 0;
    for block in 0..count {
        let answer = table.copies(block, 3, counters);
        counters = answer.counters;
        sum = mix(sum, u64::from(answer.refusal));
        sum = mix_owners(sum, &answer.owners);
        sum = mix(sum, u64::from(answer.probes));
    }
    mix(
        mix(sum, u64::from(counters.lookups)),
        u64::from(counters.probes),
    )
}
