// The offered lookups: the owner of a point, the point of a probe, the copies of a block. A lookup of a
// pool decides first whether the pool is valid, and refuses any other with 2. For callers that make
// many lookups of a pool that is known to be valid there are lookups on its lent arrays: they decide
// nothing, take logarithmic time, and are safe for any contents.
#![tactic(auto)]

ghost use Rattle.std.specs.Prelude.{◌≡◌, replicate};
ghost use Rattle.refusals.specs.Replies.{number};
ghost use Rattle.lookups.specs.Promises.{Located, TableOf, Looked, LookedIn, Copied, CopiedIn};

pub use lookup_core::Columns;
use lookup_core::{PROBES, probe_point};
use pools::Pool;
use refusals::Refusal;
use slicing::MAX_RANGE;
use valid_pools::valid;

// Accepted lookups of copies and their probes (document 01's tally). Both stay at 4,294,967,295.
#[derive(Clone, Copy, Default)]
pub struct Counters {
    pub lookups: u32,
    pub probes: u32,
}

impl Counters {
    // Fresh counters are zeros.
    pub fn new() -> Self
        ensures { (result.lookups ≡ 0) × (result.probes ≡ 0) }
    {
        Self::default()
    }
}

// The answer of a call for copies: the refusal number or 0, the owners in the order chosen and then
// zeros, the probes made, and the counters afterwards.
// A number and no `Result`: document 01 lets a refusal answer 256 tries, and the counters go back in either case.
#[derive(Clone, Copy)]
pub struct CopiesAnswer {
    pub refusal: u32,
    pub owners: [u16; 8],
    pub probes: u32,
    pub counters: Counters,
}

// The point of a probe (document 01's try). 2 where the probe is above 255 or the range not within 1 to
// 4,294,967,296.
pub fn point(block: u64, probe: u64, range: u64) -> Result<u64, Refusal>
    ensures { Located block probe range result }
{
    if probe > 255 || range < 1 || range > MAX_RANGE {
        Err(Refusal::Outside)
    } else {
        Ok(probe_point(block, probe as u32, range))
    }
}

fn refused(refusal: Refusal, probes: u32, counters: Counters) -> CopiesAnswer
    ensures { (result.refusal ≡ number refusal) × (result.owners ≡ replicate 8 0) × (result.probes ≡ probes) × (result.counters ≡ counters) }
{
    CopiesAnswer {
        refusal: u32::from(refusal),
        owners: [0; 8],
        probes,
        counters,
    }
}

// The arrays and numbers of a pool, lent: for callers that make many lookups. Nothing is asked of them, and a
// lookup decides nothing about them.
#[derive(Clone, Copy)]
pub struct Table<'a> {
    pub columns: Columns<'a>,
    pub devices: usize,
    pub range: u64,
}

impl<'a> Table<'a> {
    // That of a pool.
    pub fn of(pool: &'a Pool) -> Table<'a>
        ensures { TableOf result pool.now.starts pool.now.owners pool.now.intervals pool.now.devices pool.now.range }
    {
        Table {
            columns: Columns {
                starts: &pool.starts,
                owners: &pool.owners,
                intervals: pool.intervals,
            },
            devices: pool.devices,
            range: pool.range,
        }
    }

    // The owner of a point. 13 where the point is at or above the range, then 10 where no device is present.
    pub fn owner(self, point: u64) -> Result<u64, Refusal>
        ensures { LookedIn self.entry.columns.starts.now self.entry.columns.owners.now self.entry.columns.intervals self.entry.devices
            self.entry.range point result }
    {
        if point >= self.range {
            return Err(Refusal::PointOutside);
        }
        if self.devices == 0 {
            return Err(Refusal::NoDevice);
        }
        Ok(self.columns.owner_found(point))
    }

    // The copies of a block. 11 where k is not within 1 to 8; 10 where no device is present; 12, with 256
    // probes, where 256 probes find fewer than k different owners.
    pub fn copies(self, block: u64, k: u64, counters: Counters) -> CopiesAnswer
        ensures { CopiedIn self.entry.columns.starts.now self.entry.columns.owners.now self.entry.columns.intervals self.entry.devices
            self.entry.range block k counters result }
    {
        if k < 1 || k > 8 {
            return refused(Refusal::CopiesOutside, 0, counters);
        }
        if self.devices == 0 {
            return refused(Refusal::NoDevice, 0, counters);
        }
        let most = self.range.min(MAX_RANGE);
        let probed = self.columns.probe_owners(most, block, k as usize);
        if probed.found < k as usize {
            return refused(Refusal::FewOwners, PROBES, counters);
        }
        // A variable: a literal that takes the array straight from a field gets no proof.
        let list = probed.owners;
        CopiesAnswer {
            refusal: 0,
            owners: list,
            probes: probed.probes,
            counters: Counters {
                lookups: counters.lookups.saturating_add(1),
                probes: counters.probes.saturating_add(probed.probes),
            },
        }
    }
}

// The owner of a point. 2 for a pool that is not valid; 13 where the point is at or above the range, then
// 10 where no device is present.
pub fn owner(pool: &Pool, point: u64) -> Result<u64, Refusal>
    ensures { Looked pool.now point result }
{
    if !valid(*pool) {
        return Err(Refusal::Outside);
    }
    Table::of(pool).owner(point)
}

// The k devices that hold the copies of a block. 2 for a pool that is not valid; 11 where k is not within
// 1 to 8; 10 where no device is present; 12, with 256 probes, where 256 probes find fewer than k
// different owners.
pub fn copies(pool: &Pool, block: u64, k: u64, counters: Counters) -> CopiesAnswer
    ensures { Copied pool.now block k counters result }
{
    if !valid(*pool) {
        return refused(Refusal::Outside, 0, counters);
    }
    Table::of(pool).copies(block, k, counters)
}

// The owner of a point, of a pool by value, which it lends to `owner`.
pub fn owner_of(pool: Pool, point: u64) -> Result<u64, Refusal>
    ensures { Looked pool point result }
{
    owner(&pool, point)
}

// The copies of a block, of a pool by value, which it lends to `copies`.
pub fn copies_of(pool: Pool, block: u64, k: u64, counters: Counters) -> CopiesAnswer
    ensures { Copied pool block k counters result }
{
    copies(&pool, block, k, counters)
}
