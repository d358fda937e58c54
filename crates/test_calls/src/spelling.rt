// Bytes printed in hexadecimal, and their digest.
use std::io;
use std::io::Write;

// What is printed for no bytes.
pub fn none<W: Write>(out: &mut W) -> io::Result<()> {
    out.write_all(b"-")
}

// Bytes in hexadecimal, `-` for none.
pub fn bytes<W: Write>(out: &mut W, bytes: &[u8]) -> io::Result<()> {
    if bytes.is_empty() {
        return none(out);
    }
    for byte in bytes {
        write!(out, "{byte:02x}")?;
    }
    Ok(())
}

// The digest of some bytes.
pub fn digest<W: Write>(out: &mut W, bytes: &[u8]) -> io::Result<()> {
    let (_number, words) = sha1_digest::digest_reply(sha1_digest::digest(bytes));
    test_text::hexadecimal(out, &words)
}
