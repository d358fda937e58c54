// Lines of a reader, which is read in pieces.
ghost use Rattle.std.specs.Prelude.{◌≡◌, ◌≤◌, length, IfOk};

use std::io;
use std::io::Read;

// The bytes of a piece.
pub const PIECE: usize = 65536;

// Where reading stands: the bytes from `at` to `end` of the piece are still to be taken. Of the line: how
// many of its bytes, or of its numbers, are stored, whether it has more bytes than were stored, and whether
// it ended; and whether the input ended.
#[derive(Clone, Copy)]
pub struct Input {
    pub at: usize,
    pub end: usize,
    pub count: usize,
    pub cut: bool,
    pub ended: bool,
    pub last: bool,
}

impl Input {
    // Before anything is read.
    pub fn new() -> Self {
        Self {
            at: 0,
            end: 0,
            count: 0,
            cut: false,
            ended: false,
            last: false,
        }
    }
}

// Takes one byte of a line.
fn taken(input: Input, byte: u8, line: &mut [u8]) -> Input
    requires { input.count ≤ length line.old }
    ensures { result.count ≤ length line.old }
{
    let mut next = input;
    let count = next.count;
    if byte == b'\n' {
        next.ended = true;
        return next;
    }
    if count >= line.len() {
        next.cut = true;
        return next;
    }
    line[count] = byte;
    next.count = count + 1;
    next
}

// Reads the next piece where the last is used up.
fn filled<R: Read>(reader: &mut R, input: Input, piece: &mut [u8; PIECE]) -> io::Result<Input>
    ensures { IfOk result (λ next. next.count ≡ input.count) }
{
    if input.at < input.end {
        return Ok(input);
    }
    let mut next = input;
    next.end = reader.read(piece)?;
    next.at = 0;
    Ok(next)
}

// Reads one byte; the input's end ends the line.
fn step<R: Read>(
    reader: &mut R,
    input: Input,
    piece: &mut [u8; PIECE],
    line: &mut [u8],
) -> io::Result<Input>
    requires { input.count ≤ length line.old }
    ensures counted { IfOk result (λ next. next.count ≤ length line.old) }
    ensures line_len { length line.new ≡ length line.old }
{
    let mut next = filled(reader, input, piece)?;
    let at = next.at;
    if at < next.end && at < PIECE {
        next.at = at + 1;
        return Ok(taken(next, piece[at], line));
    }
    next.ended = true;
    next.last = true;
    Ok(next)
}

// Reads a line. Its first bytes, as many as the answer counts, stand at the front of `line`. A line has no
// limit that could be reached; the count of steps is there for the proof of the end. An error where a read
// fails: the line then keeps its length, and may hold bytes of what was read.
pub fn read_line<R: Read>(
    reader: &mut R,
    input: Input,
    piece: &mut [u8; PIECE],
    line: &mut [u8],
) -> io::Result<Input>
    ensures counted { IfOk result (λ next. next.count ≤ length line.old) }
    ensures line_len { length line.new ≡ length line.old }
{
    let mut next = input;
    next.count = 0;
    next.cut = false;
    next.ended = false;
    for _ in 0..u64::MAX {
        next = step(reader, next, piece, line)?;
        if next.ended {
            return Ok(next);
        }
    }
    Ok(next)
}

// Whether the input ended with no byte of a further line.
pub fn finished(input: Input) -> bool {
    input.last && input.count == 0
}
