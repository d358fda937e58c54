// Lines that write the image of a pool: `write` and `reread`. The buffer is of bytes aa before.
use crate::words::{MOST, number, word};
use crate::{pool_images, printing, spelling};
use pools::{Pool, PoolAnswer};
use std::io;
use std::io::Write;
use test_text::{end_line, first, space, within};

fn write_into<W: Write>(out: &mut W, pool: Pool, buffer: &mut [u8]) -> io::Result<()> {
    printing::written(out, images::write(pool, &mut *buffer))?;
    spelling::bytes(out, buffer)?;
    end_line(out)
}

pub fn write<W: Write>(out: &mut W, pool: Pool, line: &[u8]) -> io::Result<bool> {
    let Some(size) = number(word(line, 2)) else {
        return Ok(false);
    };
    if size > MOST as u64 {
        return Ok(false);
    }
    let mut buffer = [170u8; MOST];
    let n = within(size as usize, &buffer);
    write_into(out, pool, &mut buffer[..n])?;
    Ok(true)
}

fn print_read<W: Write>(out: &mut W, answer: PoolAnswer) -> io::Result<()> {
    let pool = answer.pool;
    space(out)?;
    first(out, answer.refusal)?;
    space(out)?;
    pool_images::print_digest(out, pool)?;
    end_line(out)
}

pub fn reread<W: Write>(out: &mut W, pool: Pool) -> io::Result<()> {
    let mut buffer = [170u8; MOST];
    let size = printing::written(out, images::write(pool, &mut buffer))?;
    spelling::digest(out, &buffer)?;
    let n = within(size, &buffer);
    print_read(out, images::read(&buffer[..n]))
}
