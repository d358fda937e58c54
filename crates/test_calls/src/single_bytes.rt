// Reads of every string that differs from given bytes in one byte, counted by their answers.
ghost use Rattle.std.specs.Prelude.{◌<◌, length};

use crate::pool_images::is_image;
use std::io;
use std::io::Write;
use test_text::{end_line, first, spaced};

// How many changed bytes were read and written back, refused with 14, 15, 16, and answered otherwise.
#[derive(Clone, Copy)]
struct Tally {
    accepted: u64,
    marks: u64,
    versions: u64,
    faults: u64,
    wrong: u64,
}

// The refusal number that a fault at a place has.
fn due_at(place: usize) -> u32 {
    if place < 3 {
        return 14;
    }
    if place < 5 {
        return 15;
    }
    16
}

// The answer of a read of bytes that were changed at a place: 0 where they are read and written back, 14
// to 16 where they are refused for that place, and else 1.
fn judged(bytes: &[u8], place: usize) -> u64 {
    let answer = images::read(bytes);
    if answer.refusal == 0 {
        if is_image(answer.pool, bytes) {
            return 0;
        }
        return 1;
    }
    let due = due_at(place);
    if answer.refusal != due {
        return 1;
    }
    u64::from(due)
}

fn counted(tally: Tally, answer: u64) -> Tally {
    let mut next = tally;
    match answer {
        0 => next.accepted = next.accepted.saturating_add(1),
        14 => next.marks = next.marks.saturating_add(1),
        15 => next.versions = next.versions.saturating_add(1),
        16 => next.faults = next.faults.saturating_add(1),
        _ => next.wrong = next.wrong.saturating_add(1),
    }
    next
}

// Every other byte at a place.
fn changed(bytes: &mut [u8], place: usize, tally: Tally) -> Tally
    requires { place < length bytes.old }
{
    let mut next = tally;
    let was = bytes[place];
    for x in 0..=u8::MAX {
        if x != was {
            bytes[place] = x;
            next = counted(next, judged(bytes, place));
        }
    }
    bytes[place] = was;
    next
}

fn print<W: Write>(out: &mut W, tally: Tally) -> io::Result<()> {
    first(out, tally.accepted)?;
    spaced(out, tally.marks)?;
    spaced(out, tally.versions)?;
    spaced(out, tally.faults)?;
    spaced(out, tally.wrong)?;
    end_line(out)
}

pub fn run<W: Write>(out: &mut W, bytes: &mut [u8]) -> io::Result<()> {
    let mut tally = Tally {
        accepted: 0,
        marks: 0,
        versions: 0,
        faults: 0,
        wrong: 0,
    };
    for place in 0..bytes.len() {
        tally = changed(bytes, place, tally);
    }
    print(out, tally)
}
