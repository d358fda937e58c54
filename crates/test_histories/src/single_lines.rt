// Single lines, each applied with `history::apply` to the history that the last one left: those of document
// 01's example, and lines that are refused. Prints each line, its refusal number or 0, the moved points
// and the number of moves.
use history::History;
use std::io;
use std::io::Write;

// Applies a line and prints what it gives; the history afterwards.
fn step<W: Write>(out: &mut W, history: History, line: &str) -> io::Result<History> {
    let result = history::apply(history, line.as_bytes());
    let refusal = result.refusal;
    let moved = result.moved;
    let count = result.count;
    writeln!(out, "{line}: {refusal} {moved} {count}")?;
    Ok(result.history)
}

pub fn run<W: Write>(out: &mut W) -> io::Result<()> {
    let mut history = History::new();
    history = step(out, history, "add 1 1.000")?;
    history = step(out, history, "range 100 16")?;
    history = step(out, history, "range 100 16")?;
    history = step(out, history, "remove 1")?;
    history = step(out, history, "add 1 1.000")?;
    history = step(out, history, "remove 1")?;
    history = step(out, history, "add 2 1")?;
    history = step(out, history, "add 3 1.0")?;
    history = step(out, history, "add 3 3,2")?;
    history = step(out, history, "add 3 1")?;
    history = step(out, history, "add 65536 1")?;
    history = step(out, history, "remove 2")?;
    history = step(out, history, "resize 2 3")?;
    history = step(out, history, "resize 3 0.000")?;
    history = step(out, history, "resize 3 3")?;
    step(out, history, "")?;
    Ok(())
}
