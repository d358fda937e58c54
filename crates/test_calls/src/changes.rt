// Lines that ask for a change: add, remove and resize.
use crate::words::{is, numbers};
use crate::{Outcome, pool_images};
use calls::Call;
use placement::{ChangeAnswer, Move};
use pools::Pool;
use std::io;
use std::io::Write;
use test_text::{end_line, first, least, space, spaced};

// The most places that are lent.
const PLACES: usize = 8448;

// Each number of the list before a change.
const BLANK: u64 = 7;

// The change that a line asks for, with the number of places to lend, or none.
fn change_of(line: &[u8]) -> Option<(Call, u64)> {
    if is(line, b"add", 4) {
        let [id, capacity, places] = numbers::<3>(line, 2)?;
        return Some((Call::Add(id, capacity), places));
    }
    if is(line, b"remove", 3) {
        let [id, places] = numbers::<2>(line, 2)?;
        return Some((Call::Remove(id), places));
    }
    if is(line, b"resize", 4) {
        let [id, capacity, places] = numbers::<3>(line, 2)?;
        return Some((Call::Resize(id, capacity), places));
    }
    None
}

// Start, length, old and new owner of a move.
fn one_move<W: Write>(out: &mut W, step: Move) -> io::Result<()> {
    spaced(out, step.start)?;
    spaced(out, step.length)?;
    spaced(out, step.from)?;
    spaced(out, step.to)
}

// The first n moves of a list.
fn moves<W: Write>(out: &mut W, list: &[Move], n: usize) -> io::Result<()> {
    for step in list.iter().take(n) {
        one_move(out, *step)?;
    }
    Ok(())
}

fn blank(step: Move) -> bool {
    step.start == BLANK && step.length == BLANK && step.from == BLANK && step.to == BLANK
}

// How many places of a list, from one up to another, are as before the change.
fn unchanged(list: &[Move], from: usize, to: usize) -> usize {
    list.iter()
        .take(to)
        .skip(from)
        .filter(|step| blank(**step))
        .count()
}

// The first three numbers of an answer.
fn print_numbers<W: Write>(out: &mut W, answer: ChangeAnswer) -> io::Result<()> {
    first(out, answer.refusal)?;
    spaced(out, answer.moved)?;
    spaced(out, answer.count as u64)
}

// A line whose pool is given as its image; false where it asks for no change.
pub fn run<W: Write>(out: &mut W, pool: Pool, line: &[u8]) -> io::Result<bool> {
    let Some((call, places)) = change_of(line) else {
        return Ok(false);
    };
    let lent = test_lent_lists::changed(pool, call, least(places, PLACES));
    let answer = lent.answer;
    print_numbers(out, answer)?;
    space(out)?;
    pool_images::print(out, answer.pool)?;
    moves(out, &lent.list, answer.count)?;
    end_line(out)?;
    Ok(true)
}

// A line whose pool is the kept one.
pub fn run_kept<W: Write>(out: &mut W, kept: Pool, line: &[u8]) -> io::Result<Outcome> {
    let Some((call, places)) = change_of(line) else {
        return Ok(Outcome::bad(kept));
    };
    let n = least(places, PLACES);
    let lent = test_lent_lists::changed(kept, call, n);
    let answer = lent.answer;
    print_numbers(out, answer)?;
    spaced(out, unchanged(&lent.list, answer.count, n) as u64)?;
    end_line(out)?;
    Ok(Outcome::good(answer.pool))
}
