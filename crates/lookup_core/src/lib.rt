// The stages of a lookup on lent arrays: search by halving, the point of a probe, the probing for copies.
// Internal: the calls of `lookups` stand on it. Nothing is asked of the arrays' numbers.
#![tactic(auto)]

ghost use Rattle.std.specs.Prelude.{◌≡◌, ◌+◌, ◌≤◌, ◌<◌, length, take};
ghost use Rattle.lookup_core.specs.Halving.{halve, owner_found, clamped};
ghost use Rattle.lookup_core.specs.Probes.{point_of, member};
ghost use Rattle.lookup_core.specs.Probing.{ProbesAnswered};

use slicing::MAX_INTERVALS;

// 'Try t (0 to 255)'
pub const PROBES: u32 = 256;

// The numbers of 32 bits.
const WORDS: u64 = 4294967296;

// The place among n starts that holds a point: the last start that is not above it.
fn place(starts: &[u32; MAX_INTERVALS], n: usize, point: u64) -> usize
    requires { (1 ≤ n) × (n ≤ 4096) }
    ensures { (result < n) × (result ≡ halve starts.now point n 0 n) }
{
    let mut lo = 0;
    let mut hi = n;
    // A while: `owner_found` promises where this search ends in numbers of any order, and `partition_point` promises
    // its result of sorted ones alone.
    while lo + 1 < hi {
        let middle = (lo + hi) / 2;
        if u64::from(starts[middle]) <= point {
            lo = middle;
        } else {
            hi = middle;
        }
    }
    lo
}

// The point of a probe: the first word of the digest of block and probe, scaled to the range.
pub fn probe_point(block: u64, probe: u32, range: u64) -> u64
    requires { range ≤ 4294967296 }
    ensures { result ≡ point_of block probe range }
{
    let h = u64::from(sha1_digest::first_word(block, probe));
    h * range / WORDS
}

// Whether `owner` is among the first n chosen.
fn chosen(owners: &[u16; 8], n: usize, owner: u16) -> bool
    requires { (n ≤ 8) × (length owners.now ≡ 8) }
    ensures { result ≡ member owner (take n owners.now) }
{
    owners[..n].contains(&owner)
}

// The owners chosen, in order and then zeros; how many; and the probes made.
#[derive(Clone, Copy)]
pub struct ProbeAnswer {
    pub owners: [u16; 8],
    pub found: usize,
    pub probes: u32,
}

// A pool's table on lent arrays, of which nothing is asked: where intervals start, who owns each, and how many
// there are.
#[derive(Clone, Copy)]
pub struct Columns<'a> {
    pub starts: &'a [u32; MAX_INTERVALS],
    pub owners: &'a [u16; MAX_INTERVALS],
    pub intervals: usize,
}

impl Columns<'_> {
    // The owner of a point, by halving over the starts. Without an interval it is 0.
    pub fn owner_found(self, point: u64) -> u64
        ensures value { result ≡ owner_found self.entry.starts.now self.entry.owners.now (clamped self.entry.intervals) point }
        ensures upper_bound { result < 65536 }
    {
        let most = self.intervals.min(MAX_INTERVALS);
        if most == 0 {
            return 0;
        }
        let i = place(self.starts, most, point);
        u64::from(self.owners[i])
    }

    // Probes for k copies of a block.
    pub fn probe_owners(self, range: u64, block: u64, k: usize) -> ProbeAnswer
        requires { (1 ≤ k) × (k ≤ 8) × (range ≤ 4294967296) }
        ensures { ProbesAnswered self.entry.starts.now self.entry.owners.now self.entry.intervals range block k result }
    {
        let mut list = [0u16; 8];
        let mut found = 0;
        for t in 0..PROBES {
            let owner = self.owner_found(probe_point(block, t, range)) as u16;
            if !chosen(&list, found, owner) {
                list[found] = owner;
                found += 1;
                if found == k {
                    return ProbeAnswer {
                        owners: list,
                        found,
                        probes: t + 1,
                    };
                }
            }
        }
        ProbeAnswer {
            owners: list,
            found,
            probes: PROBES,
        }
    }
}
