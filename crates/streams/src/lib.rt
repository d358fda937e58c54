// Reading to the end of the input and writing all of a text, with failures told. Knows nothing of pools.
//
// A call that a signal interrupts before it moves a byte is made again, up to INTERRUPTIONS times in a
// row; the next one is a failure. A failure carries the error that says why.
#![tactic(auto)]

ghost use Rattle.std.specs.Prelude.{IfOk};
ghost use Rattle.std.specs.Io.{ReadsAtMost, WritesAtMost};
ghost use Rattle.streams.specs.Counts.{IsPrefixLen};

use std::io;
use std::io::{Error, ErrorKind, Read, Write};

pub const INTERRUPTIONS: u32 = 64;

// Reads until buf is full, the input ends or a read fails. So many bytes stand at the start of buf; the input ended
// behind them, or buf is full. After an error what buf holds is no input.
pub fn read_to_end<R: Read>(input: &mut R, buf: &mut [u8]) -> io::Result<usize>
    ensures { IfOk result (λ n. IsPrefixLen n buf.new) }
{
    let mut done = 0;
    // A while: each read says how many more bytes came.
    while done < buf.len() {
        match read_some(input, &mut buf[done..]) {
            Ok(0) => return Ok(done),
            Ok(more) => done += more,
            Err(error) => return Err(error),
        }
    }
    Ok(done)
}

// Writes all of buf; an error where a write fails or takes nothing, when some of buf may have been
// written. Of an empty buf nothing is written.
pub fn write_all<W: Write>(output: &mut W, buf: &[u8]) -> io::Result<()> {
    let mut done = 0;
    // A while: each write says how many more bytes went.
    while done < buf.len() {
        let put = write_some(output, &buf[done..])?;
        if put == 0 {
            return Err(Error::from(ErrorKind::WriteZero));
        }
        done += put;
    }
    Ok(())
}

// Whether a call that answered so was interrupted before it moved a byte.
fn interrupted(answer: &io::Result<usize>) -> bool {
    match answer {
        Ok(_) => false,
        Err(error) => error.kind() == ErrorKind::Interrupted,
    }
}

fn read_some<R: Read>(input: &mut R, buf: &mut [u8]) -> io::Result<usize>
    ensures { ReadsAtMost result buf.new }
{
    for _ in 0..INTERRUPTIONS {
        let got = input.read(buf);
        if !interrupted(&got) {
            return got;
        }
    }
    input.read(buf)
}

fn write_some<W: Write>(output: &mut W, buf: &[u8]) -> io::Result<usize>
    ensures { WritesAtMost result buf.now }
{
    for _ in 0..INTERRUPTIONS {
        let put = output.write(buf);
        if !interrupted(&put) {
            return put;
        }
    }
    output.write(buf)
}
