// The rows of a pool, of a device's id and another number each: read from a word, and printed as one.
ghost use Rattle.std.specs.Prelude.{◌+◌, ◌*◌, ◌≤◌, ◌<◌, length};

use crate::words::MOST;
use crate::{spelling, words};
use std::io;
use std::io::Write;
use test_text::space;

// The bytes of a row.
const ROW: usize = 6;

// The number in two bytes, and in four, the highest byte first.
fn two(bytes: &[u8], at: usize) -> u16
    requires { at + 2 ≤ length bytes.now }
{
    u16::from_be_bytes([bytes[at], bytes[at + 1]])
}

fn four(bytes: &[u8], at: usize) -> u32
    requires { at + 4 ≤ length bytes.now }
{
    u32::from_be_bytes([bytes[at], bytes[at + 1], bytes[at + 2], bytes[at + 3]])
}

// Stores n rows, each a device's id and another number, which stand at these places of a row.
fn load(bytes: &[u8], n: usize, id: usize, value: usize, ids: &mut [u16], values: &mut [u32])
    requires { (id ≤ 4) × (value ≤ 2) × (6 * n ≤ length bytes.now) × (n ≤ length ids.old) × (n ≤ length values.old) }
{
    for i in 0..n {
        ids[i] = two(bytes, ROW * i + id);
        values[i] = four(bytes, ROW * i + value);
    }
}

// Stores the rows that a word gives. False where its bytes are no whole rows, or more than there are places.
pub fn loaded(word: &[u8], id: usize, value: usize, ids: &mut [u16], values: &mut [u32]) -> bool
    requires { (id ≤ 4) × (value ≤ 2) }
{
    let mut bytes = [0u8; MOST];
    let Some(size) = words::bytes(word, &mut bytes) else {
        return false;
    };
    let n = size / ROW;
    if size > MOST || size != ROW * n || n > ids.len() || n > values.len() {
        return false;
    }
    load(&bytes, n, id, value, ids, values);
    true
}

// How many rows are left without the rows of zeros at the end.
fn used(ids: &[u16], values: &[u32]) -> usize
    ensures { result ≤ length ids.now }
{
    let mut found = 0;
    for (i, id) in ids.iter().enumerate() {
        let value = if i < values.len() { values[i] } else { 0 };
        if *id != 0 || value != 0 {
            found = i + 1;
        }
    }
    found
}

// Prints a device's id and its other number, or the other number first.
fn print_row<W: Write>(out: &mut W, id: u16, value: u32, id_first: bool) -> io::Result<()> {
    if id_first {
        write!(out, "{id:04x}{value:08x}")
    } else {
        write!(out, "{value:08x}{id:04x}")
    }
}

// Prints a word of rows, of devices or of intervals, which have the owner's id last. Rows of zeros at the
// end are left out.
pub fn print<W: Write>(out: &mut W, ids: &[u16], values: &[u32], id_first: bool) -> io::Result<()> {
    let shown = used(ids, values);
    space(out)?;
    if shown == 0 {
        spelling::none(out)?;
    }
    for (id, value) in ids.iter().zip(values).take(shown) {
        print_row(out, *id, *value, id_first)?;
    }
    Ok(())
}
