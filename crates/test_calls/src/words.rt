// The words of a line: numbers and bytes.
ghost use Rattle.std.specs.Prelude.{◌+◌, ◌*◌, ◌≤◌, ◌<◌, length, IfSome};

// The most bytes that a word gives.
pub const MOST: usize = 32768;

// Word number k of a line, counted from 0; no bytes where there are fewer.
pub fn word(line: &[u8], k: usize) -> &[u8] {
    line.split(|byte| *byte == b' ').nth(k).unwrap_or(&[])
}

// How many words a line has behind the first.
fn arguments(line: &[u8]) -> usize {
    line.iter().filter(|byte| **byte == b' ').count()
}

// Whether a line has this first word and so many behind it.
pub fn is(line: &[u8], name: &[u8], n: usize) -> bool {
    word(line, 0) == name && arguments(line) == n
}

// A number with a further digit, where the byte is one and the number still fits.
fn extended(value: u64, byte: u8) -> Option<u64> {
    let digit = match byte {
        b'0'..=b'9' => byte - b'0',
        _ => return None,
    };
    value.checked_mul(10)?.checked_add(u64::from(digit))
}

// A decimal number of at most 64 bits, without a leading zero.
pub fn number(word: &[u8]) -> Option<u64> {
    if word.is_empty() || (word.len() > 1 && word[0] == b'0') {
        return None;
    }
    let mut value = 0;
    for byte in word {
        value = extended(value, *byte)?;
    }
    Some(value)
}

// A number of at most 32 bits, written so.
pub fn number32(word: &[u8]) -> Option<u32> {
    u32::try_from(number(word)?).ok()
}

// The numbers that the words of a line from number k on are, as many as are asked for.
pub fn numbers<const N: usize>(line: &[u8], k: usize) -> Option<[u64; N]>
    requires { k + N ≤ 8 }
{
    let mut list = [0; N];
    for i in 0..N {
        list[i] = number(word(line, k + i))?;
    }
    Some(list)
}

// The value of a hexadecimal digit in lower case.
fn nibble(byte: u8) -> Option<u8>
    ensures { IfSome result (λ digit. digit < 16) }
{
    match byte {
        b'0'..=b'9' => Some(byte - b'0'),
        b'a'..=b'f' => Some(byte - b'a' + 10),
        _ => None,
    }
}

// Stores the n bytes that a word's digits give; none where one of them is no digit.
fn decoded(word: &[u8], n: usize, bytes: &mut [u8]) -> Option<()>
    requires { (2 * n ≤ length word.now) × (n ≤ length bytes.old) }
{
    for i in 0..n {
        let high = nibble(word[2 * i])?;
        let low = nibble(word[2 * i + 1])?;
        bytes[i] = 16 * high + low;
    }
    Some(())
}

// Stores the bytes that a word gives in hexadecimal, `-` for none. Answers their number; none for a word that
// gives no bytes, or more than MOST.
pub fn bytes(word: &[u8], bytes: &mut [u8]) -> Option<usize>
    requires { 32768 ≤ length bytes.old }
{
    if word == b"-".as_slice() {
        return Some(0);
    }
    let n = word.len() / 2;
    if n < 1 || n > MOST || word.len() != 2 * n {
        return None;
    }
    decoded(word, n, bytes)?;
    Some(n)
}
