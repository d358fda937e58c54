// Numbers printed.
use std::fmt::Display;
use std::io;
use std::io::Write;

// Prints the first number of a line.
pub fn first<W: Write, T: Display + Drop>(out: &mut W, n: T) -> io::Result<()> {
    write!(out, "{n}")
}

pub fn space<W: Write>(out: &mut W) -> io::Result<()> {
    out.write_all(b" ")
}

// Prints a further number of a line.
pub fn spaced<W: Write, T: Display + Drop>(out: &mut W, n: T) -> io::Result<()> {
    write!(out, " {n}")
}

// Ends a printed line.
pub fn end_line<W: Write>(out: &mut W) -> io::Result<()> {
    out.write_all(b"\n")
}

// Prints a line of two numbers.
pub fn pair<W: Write, T: Display + Drop>(out: &mut W, a: T, b: u64) -> io::Result<()> {
    writeln!(out, "{a} {b}")
}

// Prints the numbers of a list as further numbers of a line.
pub fn spaced_list<W: Write, T: Display>(out: &mut W, list: &[T]) -> io::Result<()> {
    for x in list {
        spaced(out, x)?;
    }
    Ok(())
}

// Prints five words in hexadecimal, with nothing between.
pub fn hexadecimal<W: Write>(out: &mut W, words: &[u32; 5]) -> io::Result<()> {
    for word in words {
        write!(out, "{word:08x}")?;
    }
    Ok(())
}
