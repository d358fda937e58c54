// Reads call lines from standard input, and prints the answer of each on a line of its own. Nothing is
// decided here but how a line is read and an answer printed. BYTES, TEXT, POOL, DEVICES and INTERVALS are
// bytes in lower-case hexadecimal, `-` for none; the other words are decimal numbers of at most 64 bits
// without a leading zero. The lines of stdin and stdout are made from test vectors by tools/test_calls.py.
//
//   sha1 BYTES                           refusal, digest
//   capacity TEXT                        refusal, thousandths
//   transcript TEXT                      refusal, length and digest of what `slices` prints; zeros for the digest
//                                        of more than 65,536 bytes
//   point BLOCK TRY RANGE                refusal, point
//   owner POOL POINT                     refusal, owner
//   copies POOL BLOCK K LOOKUPS TRIES    refusal, eight owners, tries, the two counters afterwards
//   share POOL ID                        refusal, points
//   report POOL ID                       refusal, whole number, remainder, difference with its sign
//   add POOL ID CAPACITY PLACES          refusal, moved points, number of moves, the pool afterwards, then
//   remove POOL ID PLACES                start, length, old and new owner of each move
//   resize POOL ID CAPACITY PLACES
//   read BYTES                           refusal, the pool made
//   write POOL SIZE                      refusal, length, the buffer afterwards, each byte aa before
//   reread POOL                          as `write POOL 32768`, but the digest of the buffer; then a read of
//                                        what was written: refusal, digest of the image of the pool made
//   single BYTES                         a read of every string that differs from these bytes in one byte:
//                                        how many give a pool that writes back to the same bytes; how many
//                                        are refused with 14 for a byte of the mark, with 15 for one of the
//                                        version, with 16 for any other; how many are answered otherwise
//   fresh RANGE LIMIT                    refusal, the pool made; keeps it
//   pool RANGE LIMIT N Q DEVICES INTERVALS
//                                        0; keeps the pool of these numbers as they stand, valid or not
//   show                                 the kept pool, as the words of its `pool` line
//
// Words are parted by one space. A pool is given and answered as its image; for an image that is refused
// it is the pool that the read answers. PLACES is the length of the lent list: 8,448 places are lent for any
// number above, since no change has more moves. LOOKUPS, TRIES and the LIMIT of `pool` are at most
// 4,294,967,295, SIZE at most 32,768, and a line at most 65,536 bytes without its end. Any other line is
// answered by `bad line`. The last line may lack its end.
//
// One pool is kept from line to line, first that of range 1 and limit 1 without devices. Where POOL is `.`
// the kept pool is meant. A change of it keeps the pool afterwards, and is answered by: refusal, moved
// points, number of moves, how many of the lent places behind the moves are unchanged.
//
// The pool of `pool` has N devices and Q intervals, and in its first places the rows given, of six bytes
// each as in an image: id and capacity of at most 256 devices, start and owner of at most 4,096 intervals.
// The other places are 0. `show` leaves out the rows of zeros at the end.
#![tactic(auto)]

use crate::words::{MOST, is, word};
use pools::Pool;
use std::io;
use std::io::{BufWriter, Read, Write};
use test_text::{Input, PIECE, within};

mod changes;
mod image_lines;
mod lookup_lines;
mod pool_images;
mod pool_lines;
mod pool_rows;
mod printing;
mod single_bytes;
mod spelling;
mod transcripts;
mod words;

// The most bytes of a line without its end.
const LONGEST: usize = 65536;

// Whether a line was answered, and the pool that is kept afterwards.
#[derive(Clone, Copy)]
pub struct Outcome {
    pub answered: bool,
    pub pool: Pool,
}

impl Outcome {
    pub fn good(pool: Pool) -> Self {
        Self {
            answered: true,
            pool,
        }
    }

    pub fn bad(kept: Pool) -> Self {
        Self {
            answered: false,
            pool: kept,
        }
    }
}

// A line whose second word is a pool. Here and in what follows false is answered for a line that is none,
// and then nothing is printed.
fn pool_line<W: Write>(out: &mut W, pool: Pool, line: &[u8]) -> io::Result<bool> {
    if is(line, b"owner", 2) {
        return lookup_lines::owner(out, pool, line);
    }
    if is(line, b"copies", 5) {
        return lookup_lines::copies(out, pool, line);
    }
    if is(line, b"share", 2) {
        return lookup_lines::share(out, pool, line);
    }
    if is(line, b"report", 2) {
        return lookup_lines::report(out, pool, line);
    }
    if is(line, b"write", 2) {
        return image_lines::write(out, pool, line);
    }
    if is(line, b"reread", 1) {
        image_lines::reread(out, pool)?;
        return Ok(true);
    }
    changes::run(out, pool, line)
}

// A line whose second word gives these bytes.
fn bytes_line<W: Write>(out: &mut W, line: &[u8], bytes: &mut [u8]) -> io::Result<bool> {
    if is(line, b"sha1", 1) {
        printing::digest(out, sha1_digest::digest(bytes))?;
        return Ok(true);
    }
    if is(line, b"capacity", 1) {
        printing::reply(out, history::capacity(bytes))?;
        return Ok(true);
    }
    if is(line, b"transcript", 1) {
        transcripts::transcript(out, bytes)?;
        return Ok(true);
    }
    if is(line, b"read", 1) {
        printing::made(out, images::read(bytes))?;
        return Ok(true);
    }
    if is(line, b"single", 1) {
        single_bytes::run(out, bytes)?;
        return Ok(true);
    }
    pool_line(out, images::read(bytes).pool, line)
}

// A line that does not name the kept pool.
fn other_line<W: Write>(out: &mut W, line: &[u8]) -> io::Result<bool> {
    if is(line, b"point", 3) {
        return lookup_lines::point(out, line);
    }
    let mut bytes = [0u8; MOST];
    let Some(size) = words::bytes(word(line, 1), &mut bytes) else {
        return Ok(false);
    };
    let n = within(size, &bytes);
    bytes_line(out, line, &mut bytes[..n])
}

// A line whose second word is `.`.
fn kept_line<W: Write>(out: &mut W, kept: Pool, line: &[u8]) -> io::Result<Outcome> {
    let changed = changes::run_kept(out, kept, line)?;
    if changed.answered {
        return Ok(changed);
    }
    Ok(Outcome {
        answered: pool_line(out, kept, line)?,
        pool: kept,
    })
}

fn run<W: Write>(out: &mut W, kept: Pool, line: &[u8]) -> io::Result<Outcome> {
    if is(line, b"fresh", 2) {
        return pool_lines::fresh(out, kept, line);
    }
    if is(line, b"pool", 6) {
        return pool_lines::pool(out, kept, line);
    }
    if is(line, b"show", 0) {
        return pool_lines::show(out, kept);
    }
    if word(line, 1) == b".".as_slice() {
        return kept_line(out, kept, line);
    }
    Ok(Outcome {
        answered: other_line(out, line)?,
        pool: kept,
    })
}

// Answers a line, of which reading said whether it was cut off, and gives the pool that is kept afterwards.
fn answer<W: Write>(out: &mut W, kept: Pool, line: &[u8], cut: bool) -> io::Result<Pool> {
    if !cut {
        let outcome = run(out, kept, line)?;
        if outcome.answered {
            return Ok(outcome.pool);
        }
    }
    out.write_all(b"bad line\n")?;
    Ok(kept)
}

// Answers the lines of a reader to its end. Their number has no limit that could be reached; the count is
// there for the proof of the end.
fn answer_all<R: Read, W: Write>(reader: &mut R, out: &mut W) -> io::Result<()> {
    let mut kept = pools::fresh(1, 1).pool;
    let mut piece = [0u8; PIECE];
    let mut line = [0u8; LONGEST];
    let mut input = Input::new();
    for _ in 0..u64::MAX {
        input = test_text::read_line(reader, input, &mut piece, &mut line)?;
        if test_text::finished(input) {
            return Ok(());
        }
        let n = within(input.count, &line);
        kept = answer(out, kept, &line[..n], input.cut)?;
    }
    Ok(())
}

fn main(rt: HostRuntime) -> io::Result<()> {
    let mut out = BufWriter::new(rt.alloc(), rt.stdout())?;
    answer_all(&mut rt.stdin(), &mut out)?;
    out.flush()
}
