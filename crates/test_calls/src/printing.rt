// The printed answers. Those of changes are printed in `changes`.
use crate::pool_images;
use lookups::CopiesAnswer;
use pools::PoolAnswer;
use refusals::Refusal;
use std::io;
use std::io::Write;
use test_text::{end_line, first, pair, space, spaced};
use valid_pools::DeviceReport;

// The number of a refusal, or 0 and the value.
pub fn reply<W: Write>(out: &mut W, answer: Result<u64, Refusal>) -> io::Result<()> {
    match answer {
        Ok(value) => pair(out, 0, value),
        Err(refusal) => pair(out, u32::from(refusal), 0),
    }
}

pub fn digest<W: Write>(out: &mut W, answer: Result<[u32; 5], Refusal>) -> io::Result<()> {
    let (number, words) = sha1_digest::digest_reply(answer);
    first(out, number)?;
    space(out)?;
    test_text::hexadecimal(out, &words)?;
    end_line(out)
}

pub fn report<W: Write>(out: &mut W, answer: Result<DeviceReport, Refusal>) -> io::Result<()> {
    let (number, report) = valid_pools::report_reply(answer);
    first(out, number)?;
    spaced(out, report.whole)?;
    spaced(out, report.remainder)?;
    spaced(out, report.difference)?;
    end_line(out)
}

pub fn copies<W: Write>(out: &mut W, answer: CopiesAnswer) -> io::Result<()> {
    let list = answer.owners;
    let counters = answer.counters;
    first(out, answer.refusal)?;
    test_text::spaced_list(out, &list)?;
    spaced(out, answer.probes)?;
    spaced(out, counters.lookups)?;
    spaced(out, counters.probes)?;
    end_line(out)
}

pub fn made<W: Write>(out: &mut W, answer: PoolAnswer) -> io::Result<()> {
    let pool = answer.pool;
    first(out, answer.refusal)?;
    space(out)?;
    pool_images::print(out, pool)?;
    end_line(out)
}

// The refusal number and the length of a write, the length also as the answer; the buffer follows.
pub fn written<W: Write>(out: &mut W, answer: Result<usize, Refusal>) -> io::Result<usize> {
    let (number, size) = match answer {
        Ok(size) => (0, size),
        Err(refusal) => (u32::from(refusal), 0),
    };
    first(out, number)?;
    spaced(out, size as u64)?;
    space(out)?;
    Ok(size)
}
