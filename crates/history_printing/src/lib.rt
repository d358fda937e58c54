// What `slices` prints, written into a buffer: lines of numbers, the rows of a table, a text. Internal.
#![tactic(auto)]

ghost use Rattle.std.specs.Prelude.{◌≡◌, [], ◌∷◌, ◌++◌, ◌+◌, ◌*◌, ◌≤◌, ◌<◌, ◌^◌, cond, eqb, ltb, length, take, drop};
ghost use Rattle.slicing.specs.Runs.{Coalesced};
ghost use Rattle.slicing_core.specs.Rows.{at, table_rows, interval_rows};
ghost use Rattle.history_printing.specs.Printing.{decimal, fields, printed_rows};

use slicing::MAX_INTERVALS;

// Writes the decimal digits of a number at a place, and answers the place behind them.
fn put_decimal(out: &mut [u8], place: usize, n: u64) -> usize
    requires { place + length (decimal n) ≤ length out.old }
    ensures place { result ≡ place + length (decimal n) }
    ensures digits { out.new ≡ take place out.old ++ decimal n ++ drop (place + length (decimal n)) out.old }
{
    if n < 10 {
        out[place] = b'0' + n as u8;
        return place + 1;
    }
    let last = put_decimal(out, place, n / 10);
    out[last] = b'0' + (n % 10) as u8;
    last + 1
}

// Writes a number and the byte behind it.
fn put_field(out: &mut [u8], place: usize, n: u64, end: u8) -> usize
    requires { place + length (decimal n) + 1 ≤ length out.old }
    ensures place { result ≡ place + length (decimal n ++ end ∷ []) }
    ensures field { out.new ≡ take place out.old ++ (decimal n ++ end ∷ []) ++ drop (place + length (decimal n ++ end ∷ [])) out.old }
{
    let last = put_decimal(out, place, n);
    out[last] = end;
    last + 1
}

// Writes a line of numbers, at least one.
pub fn put_line(out: &mut [u8], place: usize, numbers: &[u64]) -> usize
    requires some { 1 ≤ length numbers.now }
    requires room { place + length (fields numbers.now) ≤ length out.old }
    ensures place { result ≡ place + length (fields numbers.now) }
    ensures line { out.new ≡ take place out.old ++ fields numbers.now ++ drop (place + length (fields numbers.now)) out.old }
{
    let mut last = place;
    for (i, n) in numbers.iter().enumerate() {
        let end = if i + 1 < numbers.len() { b' ' } else { b'\n' };
        last = put_field(out, last, *n, end);
    }
    last
}

// Where interval i ends: at the next start, the last one at the range's end.
fn end_of(starts: &[u32; MAX_INTERVALS], i: usize, q: usize, range: u64) -> u64
    requires { (i < q) × (q ≤ 4096) }
    ensures { result ≡ cond (ltb (i + 1) q) (at starts.now (i + 1)) range }
{
    if i + 1 < q {
        return u64::from(starts[i + 1]);
    }
    range
}

// Writes start, length and owner of each of the q intervals.
pub fn put_rows(
    out: &mut [u8],
    place: usize,
    starts: &[u32; MAX_INTERVALS],
    owners: &[u16; MAX_INTERVALS],
    q: usize,
    range: u64,
) -> usize
    requires q_bound { (q ≤ 4096) × (range ≤ 2 ^ 32) × Coalesced eqb (table_rows starts.now owners.now range 0 q) }
    requires q_in_bounds { place + 33 * q ≤ length out.old }
    ensures place { result ≡ place + length (printed_rows (interval_rows starts.now owners.now range 0 q)) }
    ensures rows { out.new ≡ take place out.old ++ printed_rows (interval_rows starts.now owners.now range 0 q)
        ++ drop (place + length (printed_rows (interval_rows starts.now owners.now range 0 q))) out.old }
{
    let mut last = place;
    for i in 0..q {
        let start = u64::from(starts[i]);
        let end = end_of(starts, i, q, range);
        last = put_line(out, last, &[start, end - start, u64::from(owners[i])]);
    }
    last
}

// Writes a text.
pub fn put_text(out: &mut [u8], place: usize, text: &[u8]) -> usize
    requires { place + length text.now ≤ length out.old }
    ensures place { result ≡ place + length text.now }
    ensures text { out.new ≡ take place out.old ++ text.now ++ drop (place + length text.now) out.old }
{
    let end = place + text.len();
    out[place..end].copy_from_slice(text);
    end
}
