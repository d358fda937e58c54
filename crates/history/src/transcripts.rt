// What `slices` prints of a history text.
ghost use Rattle.std.specs.Prelude.{◌≡◌, ◌++◌, ◌+◌, ◌*◌, ◌≤◌, length, take, drop};
ghost use Rattle.pools.specs.Pools.{state_of, ValidPool};
ghost use Rattle.history.specs.Promises.{Transcribed};
ghost use Rattle.history.specs.Replay.{printed_table, replayed};

use history_lines::part_at;
use history_printing::{put_line, put_rows, put_text};
use history_steps::advance;
use opened::making::without_devices;
use packed_runs::blank;
use pools::{Pool, close};
use refusals::Refusal;

// Every transcript fits into so many bytes.
pub const ROOM: usize = 3145728;

// The most bytes of a history.
pub const LONGEST: usize = 65536;

// Writes the table of a pool.
fn put_table(out: &mut [u8], place: usize, pool: Pool) -> usize
    requires { ValidPool pool × (place + 6 + 33 * pool.intervals ≤ length out.old) }
    ensures place { result ≡ place + length (printed_table (state_of pool)) }
    ensures table { out.new ≡ take place out.old ++ printed_table (state_of pool) ++ drop (place + length (printed_table (state_of pool))) out.old }
{
    let rows = put_text(out, place, b"table\n");
    put_rows(
        out,
        rows,
        &pool.starts,
        &pool.owners,
        pool.intervals,
        pool.range,
    )
}

// Prints a history of at most 65,536 bytes. Its pool is opened from the first line to the last, and closed
// for the table that is printed.
fn replay(text: &[u8], out: &mut [u8]) -> usize
    requires { (length text.now ≤ 65536) × (3145728 ≤ length out.old) }
    ensures place { result ≡ length (replayed text.now) }
    ensures text { out.new ≡ replayed text.now ++ drop (length (replayed text.now)) out.old }
{
    let mut table = blank();
    let mut work = blank();
    let mut next = blank();
    let mut begun = false;
    let mut pool = without_devices(1, 1);
    let mut line = 1;
    let mut from = 0;
    let mut place = 0;
    // A while: a line that was read says where the next one starts.
    while from < text.len() {
        let part = part_at(text, from);
        let step = match part.said {
            Ok(said) => advance(begun, pool, Ok(said), &mut table, &mut work, &mut next),
            Err(refusal) => Err(refusal),
        };
        match step {
            Ok(step) => {
                place = put_line(out, place, &[line, 0, step.moved, step.count as u64]);
                begun = true;
                pool = step.pool;
            }
            Err(refusal) => {
                let number = u64::from(u32::from(refusal));
                place = put_line(out, place, &[line, number, 0, 0]);
            }
        }
        line += 1;
        from = part.next;
    }
    put_table(out, place, close(pool, &table))
}

// Writes what `slices` prints of a text, and answers how many bytes. More than 65,536 bytes give `too
// long` alone. A buffer of less than ROOM bytes is refused with 17 and stays; the bytes behind the
// transcript stay.
pub fn transcript(text: &[u8], out: &mut [u8]) -> Result<usize, Refusal>
    ensures { Transcribed text.now out.old result out.new }
{
    if out.len() < ROOM {
        return Err(Refusal::ShortBuffer);
    }
    if text.len() > LONGEST {
        return Ok(put_text(out, 0, b"too long\n"));
    }
    Ok(replay(text, out))
}
