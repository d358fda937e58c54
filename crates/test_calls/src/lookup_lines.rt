// Lines that look something up: points, owners, copies, shares and reports.
use crate::printing;
use crate::words::{number, number32, numbers, word};
use lookups::Counters;
use pools::Pool;
use std::io;
use std::io::Write;

pub fn point<W: Write>(out: &mut W, line: &[u8]) -> io::Result<bool> {
    let Some(list) = numbers::<3>(line, 1) else {
        return Ok(false);
    };
    let [block, probe, range] = list;
    printing::reply(out, lookups::point(block, probe, range))?;
    Ok(true)
}

pub fn owner<W: Write>(out: &mut W, pool: Pool, line: &[u8]) -> io::Result<bool> {
    let Some(point) = number(word(line, 2)) else {
        return Ok(false);
    };
    printing::reply(out, lookups::owner_of(pool, point))?;
    Ok(true)
}

pub fn share<W: Write>(out: &mut W, pool: Pool, line: &[u8]) -> io::Result<bool> {
    let Some(id) = number(word(line, 2)) else {
        return Ok(false);
    };
    printing::reply(out, valid_pools::share(pool, id))?;
    Ok(true)
}

pub fn report<W: Write>(out: &mut W, pool: Pool, line: &[u8]) -> io::Result<bool> {
    let Some(id) = number(word(line, 2)) else {
        return Ok(false);
    };
    printing::report(out, valid_pools::report(pool, id))?;
    Ok(true)
}

pub fn copies<W: Write>(out: &mut W, pool: Pool, line: &[u8]) -> io::Result<bool> {
    let Some(list) = numbers::<2>(line, 2) else {
        return Ok(false);
    };
    let [block, k] = list;
    let Some(lookups) = number32(word(line, 4)) else {
        return Ok(false);
    };
    let Some(probes) = number32(word(line, 5)) else {
        return Ok(false);
    };
    let counters = Counters { lookups, probes };
    printing::copies(out, lookups::copies_of(pool, block, k, counters))?;
    Ok(true)
}
