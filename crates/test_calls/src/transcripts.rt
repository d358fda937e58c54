// The line `transcript`: what `slices` prints of a text.
use crate::spelling;
use std::io;
use std::io::Write;
use test_text::{end_line, first, pair, space, spaced, within};

fn run<W: Write>(out: &mut W, text: &[u8], room: &mut [u8]) -> io::Result<()> {
    match history::transcript(text, room) {
        Ok(size) => {
            let n = within(size, room);
            first(out, 0)?;
            spaced(out, n as u64)?;
            space(out)?;
            spelling::digest(out, &room[..n])?;
            end_line(out)
        }
        Err(refusal) => pair(out, u32::from(refusal), 0),
    }
}

pub fn transcript<W: Write>(out: &mut W, text: &[u8]) -> io::Result<()> {
    let mut room = history_streams::transcript_room();
    run(out, text, &mut room)
}
