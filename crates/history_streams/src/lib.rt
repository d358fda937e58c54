// The way of a history from a reader to a writer: reads the text, writes its transcript, and tells which
// of the two failed, and why.
#![tactic(auto)]

ghost use Rattle.std.specs.Prelude.{◌≡◌, ◌+◌, length, take};
ghost use Rattle.streams.specs.Counts.{IsPrefixLen};
ghost use Rattle.history.specs.Promises.{room};
ghost use Rattle.history.specs.Replay.{max_text, transcript};

use history::ROOM;
use std::io::{Error, Read, Write};

// One byte more than the longest history, so that a longer one is seen.
pub const MOST: usize = 65537;

// Why a history was not printed whole.
#[derive(Clone, Copy)]
pub enum Failure {
    // Nothing was written.
    Unread(Error),
    // Some of the transcript may have been written.
    Unwritten(Error),
}

// MOST zeros.
pub fn text_room() -> [u8; MOST]
    ensures { max_text + 1 ≡ length result }
{
    [0; MOST]
}

// ROOM zeros.
pub fn transcript_room() -> [u8; ROOM]
    ensures { room ≡ length result }
{
    [0; ROOM]
}

// Puts the transcript of a text at the start of out; how many bytes it has.
fn put_transcript(text: &[u8], out: &mut [u8; ROOM]) -> usize
    ensures count { IsPrefixLen result out.new }
    ensures text { take result out.new ≡ transcript text.now }
{
    match history::transcript(text, out) {
        Ok(n) => n,
        Err(_) => 0,
    }
}

// Reads a history from input to its end, or to one byte more than the longest, and writes its transcript
// to output. Closes neither.
pub fn transcribe<R: Read, W: Write>(input: &mut R, output: &mut W) -> Result<(), Failure> {
    let mut text = text_room();
    let size = match streams::read_to_end(input, &mut text) {
        Ok(size) => size,
        Err(error) => return Err(Failure::Unread(error)),
    };
    let mut out = transcript_room();
    let printed = put_transcript(&text[..size], &mut out);
    match streams::write_all(output, &out[..printed]) {
        Ok(()) => Ok(()),
        Err(error) => Err(Failure::Unwritten(error)),
    }
}
