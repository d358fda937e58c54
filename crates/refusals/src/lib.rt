// Document 01's refusals: one enum, whose numbers are the document's. Knows nothing of pools.
#![tactic(auto)]

ghost use Rattle.std.specs.Prelude.{◌≡◌};
ghost use Rattle.refusals.specs.Replies.{number};

// Why a call is refused. Each is named after its row of document 01's table, and has its number.
#[derive(Clone, Copy, Debug, PartialEq, Eq)]
pub enum Refusal {
    // 'not one of the four shapes'
    Shapeless = 1,
    // 'a number outside its limits that no other row names', and a pool that is not valid
    Outside = 2,
    // 'a change line with no range line accepted before, or a range line after an accepted one'
    Misplaced = 3,
    // 'id present'
    Present = 4,
    // 'id absent'
    Absent = 5,
    // '256 present'
    Full = 6,
    // 'the only device'
    OnlyDevice = 7,
    // 'the joined new table has over M intervals'
    OverLimit = 8,
    // 'more moves than places in the lent list'
    ShortList = 9,
    // 'no device'
    NoDevice = 10,
    // 'k is 0 or above 8'
    CopiesOutside = 11,
    // 'fewer than k different owners in 256 tries'
    FewOwners = 12,
    // 'point at or above R'
    PointOutside = 13,
    // 'under 19 bytes, or another mark'
    Unmarked = 14,
    // 'another version'
    OtherVersion = 15,
    // 'any other fault'
    Faulty = 16,
    // 'buffer too short'
    ShortBuffer = 17,
}

impl From<Refusal> for u32 {
    ghost from_gives = { λ refusal result. result ≡ number refusal };

    fn from(refusal: Refusal) -> u32 {
        refusal as u32
    }
}
