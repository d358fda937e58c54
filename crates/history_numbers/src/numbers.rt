// Numbers and capacities of history text.
ghost use Rattle.std.specs.Prelude.{◌≡◌, cond, ℕ, Some, None, ◌≤◌, ◌<◌, ◌^◌, length};
ghost use Rattle.history_numbers.specs.Cuts.{cut_at};
ghost use Rattle.history_numbers.specs.Capacities.{CapacityRead};
ghost use Rattle.history_numbers.specs.Text.{all_digits, spelled, is_fraction, fraction_of, number_in, capacity_in};

use refusals::Refusal;
use slicing::{MAX_CAPACITY, outside};

// The place of the first such byte, the length where there is none.
pub fn find(text: &[u8], byte: u8) -> usize
    ensures { (result ≡ cut_at byte text.now) × (result ≤ length text.now) }
{
    text.iter().position(|b| *b == byte).unwrap_or(text.len())
}

// The number that at most ten digits spell.
fn digits(word: &[u8]) -> Option<u64>
    requires { length word.now ≤ 10 }
    ensures value { result ≡ cond (all_digits word.now) (Some (spelled 0 word.now)) None }
    ensures by_index { (n : ℕ) → result ≡ Some n → n < 10 ^ length word.now }
{
    let mut value = 0;
    for byte in word {
        if !byte.is_ascii_digit() {
            return None;
        }
        value = 10 * value + u64::from(*byte - b'0');
    }
    Some(value)
}

// The number of a word of 1 to 10 digits without a leading zero, or 0.
pub fn number(word: &[u8]) -> Option<u64>
    ensures value { result ≡ number_in word.now }
    ensures by_index { (n : ℕ) → result ≡ Some n → n < 10 ^ 10 }
{
    let n = word.len();
    if n < 1 || n > 10 {
        return None;
    }
    if n > 1 && word[0] == b'0' {
        return None;
    }
    digits(word)
}

// One to three digits behind the point, in thousandths.
fn fraction(word: &[u8]) -> Option<u64>
    ensures value { result ≡ cond (is_fraction word.now) (Some (fraction_of word.now)) None }
    ensures by_index { (n : ℕ) → result ≡ Some n → n < 1000 }
{
    let n = word.len();
    if n == 0 || n > 3 {
        return None;
    }
    let value = digits(word)?;
    match n {
        1 => Some(100 * value),
        2 => Some(10 * value),
        _ => Some(value),
    }
}

// A capacity in thousandths of a TB, whatever its size. The largest is that of `9999999999.999`.
fn thousandths(word: &[u8]) -> Option<u64>
    ensures { result ≡ capacity_in word.now }
{
    let end = find(word, b'.');
    let whole = number(&word[..end])?;
    if end == word.len() {
        return Some(1000 * whole);
    }
    let rest = fraction(&word[end + 1..])?;
    Some(1000 * whole + rest)
}

// A capacity in thousandths of a TB. 1 for a word that is none, 2 for one outside 1 to 16,000,000.
pub fn capacity(word: &[u8]) -> Result<u64, Refusal>
    ensures { CapacityRead word.now result }
{
    let Some(value) = thousandths(word) else {
        return Err(Refusal::Shapeless);
    };
    if outside(MAX_CAPACITY, value) {
        return Err(Refusal::Outside);
    }
    Ok(value)
}
