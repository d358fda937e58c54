// Lines that make the kept pool, and the one that shows it: `fresh`, `pool` and `show`.
use crate::words::{number, number32, numbers, word};
use crate::{Outcome, pool_rows, printing};
use pools::Pool;
use std::io;
use std::io::Write;
use test_text::{end_line, first, spaced};

pub fn fresh<W: Write>(out: &mut W, kept: Pool, line: &[u8]) -> io::Result<Outcome> {
    let Some(list) = numbers::<2>(line, 1) else {
        return Ok(Outcome::bad(kept));
    };
    let [range, limit] = list;
    let answer = pools::fresh(range, limit);
    printing::made(out, answer)?;
    Ok(Outcome::good(answer.pool))
}

// The four numbers of a `pool` line: range, limit, and how many devices and intervals.
fn head_of(line: &[u8]) -> Option<(u64, u32, u64, u64)> {
    let range = number(word(line, 1))?;
    let limit = number32(word(line, 2))?;
    let [devices, intervals] = numbers::<2>(line, 3)?;
    Some((range, limit, devices, intervals))
}

pub fn pool<W: Write>(out: &mut W, kept: Pool, line: &[u8]) -> io::Result<Outcome> {
    let Some((range, limit, devices, intervals)) = head_of(line) else {
        return Ok(Outcome::bad(kept));
    };
    let mut ids = [0u16; 256];
    let mut capacities = [0u32; 256];
    let mut starts = [0u32; 4096];
    let mut owners = [0u16; 4096];
    if !pool_rows::loaded(word(line, 5), 0, 2, &mut ids, &mut capacities) {
        return Ok(Outcome::bad(kept));
    }
    if !pool_rows::loaded(word(line, 6), 4, 0, &mut owners, &mut starts) {
        return Ok(Outcome::bad(kept));
    }
    first(out, 0)?;
    end_line(out)?;
    Ok(Outcome::good(Pool {
        range,
        limit,
        devices: devices as usize,
        ids,
        capacities,
        intervals: intervals as usize,
        starts,
        owners,
    }))
}

pub fn show<W: Write>(out: &mut W, kept: Pool) -> io::Result<Outcome> {
    first(out, kept.range)?;
    spaced(out, kept.limit)?;
    spaced(out, kept.devices as u64)?;
    spaced(out, kept.intervals as u64)?;
    pool_rows::print(out, &kept.ids, &kept.capacities, true)?;
    pool_rows::print(out, &kept.owners, &kept.starts, false)?;
    end_line(out)?;
    Ok(Outcome::good(kept))
}
