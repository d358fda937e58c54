// Prints the refusal number and the digest of the published SHA-1 messages, of messages around every
// block border up to 200 bytes and of the largest. The expected output was made by `sha1sum`.
#![tactic(auto)]

use std::io;
use std::io::{BufWriter, Write};
use test_text::first;

// Byte j is j modulo 251, so that no two blocks are alike.
fn fill(out: &mut [u8]) {
    for (j, byte) in out.iter_mut().enumerate() {
        *byte = (j % 251) as u8;
    }
}

fn print_answer<W: Write>(out: &mut W, message: &[u8]) -> io::Result<()> {
    let (number, words) = sha1_digest::digest_reply(sha1_digest::digest(message));
    first(out, number)?;
    test_text::space(out)?;
    test_text::hexadecimal(out, &words)?;
    test_text::end_line(out)
}

fn published<W: Write>(out: &mut W, name: &str, message: &[u8]) -> io::Result<()> {
    write!(out, "{name}: ")?;
    print_answer(out, message)
}

// The first n bytes.
fn counted<W: Write>(out: &mut W, bytes: &[u8], n: usize) -> io::Result<()> {
    write!(out, "{n} bytes: ")?;
    print_answer(out, &bytes[..n.min(bytes.len())])
}

// The messages around every block border up to 200 bytes.
fn borders<W: Write>(out: &mut W, bytes: &[u8]) -> io::Result<()> {
    for n in 0..=200 {
        counted(out, bytes, n)?;
    }
    Ok(())
}

fn run<W: Write>(out: &mut W) -> io::Result<()> {
    published(out, "empty", b"")?;
    published(out, "abc", b"abc")?;
    published(
        out,
        "448 bits",
        b"abcdbcdecdefdefgefghfghighijhijkijkljklmklmnlmnomnopnopq",
    )?;
    published(
        out,
        "896 bits",
        b"abcdefghbcdefghicdefghijdefghijkefghijklfghijklmghijklmnhijklmnoijklmnopjklmnopqklmnopqrlmnopqrsmnopqrstnopqrstu",
    )?;
    let mut bytes = [0u8; 65537];
    fill(&mut bytes);
    borders(out, &bytes)?;
    counted(out, &bytes, 65535)?;
    counted(out, &bytes, 65536)?;
    counted(out, &bytes, 65537)
}

fn main(rt: HostRuntime) -> io::Result<()> {
    let mut out = BufWriter::new(rt.alloc(), rt.stdout())?;
    run(&mut out)?;
    out.flush()
}
