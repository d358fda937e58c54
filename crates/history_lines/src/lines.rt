// Lines of a history.
ghost use Rattle.std.specs.Prelude.{◌≡◌, ◌≤◌, IfErr, length};
ghost use Rattle.slicing.specs.Limits.{device_outside};
ghost use Rattle.history_lines.specs.Lines.{pair_line, remove_line, range_outside, three_words, LineRead};
ghost use Rattle.history_lines.specs.Cuts.{part_at};
ghost use Rattle.history_numbers.specs.Text.{number_in, capacity_in};
ghost use Rattle.history_lines.specs.declared.lines.HistoryLine.TheVariants.{Range, Add, Resize};

use history_numbers::{capacity, find, number};
use refusals::Refusal;
use slicing::{MAX_ID, MAX_LIMIT, MAX_RANGE, outside};

// What a line says.
#[derive(Clone, Copy)]
pub enum HistoryLine {
    Range(u64, u64),
    Add(u64, u64),
    Remove(u64),
    Resize(u64, u64),
}

fn range_line(first: &[u8], second: &[u8]) -> Result<HistoryLine, Refusal>
    ensures { result ≡ pair_line Range range_outside (number_in first.now) (number_in second.now) }
{
    let Some(range) = number(first) else {
        return Err(Refusal::Shapeless);
    };
    let Some(limit) = number(second) else {
        return Err(Refusal::Shapeless);
    };
    if outside(MAX_RANGE, range) || outside(MAX_LIMIT, limit) {
        return Err(Refusal::Outside);
    }
    Ok(HistoryLine::Range(range, limit))
}

// The refusal of a capacity that is refused.
fn refusal_of(answer: Result<u64, Refusal>) -> Refusal
    ensures { IfErr answer (λ e. result ≡ e) }
{
    match answer {
        Ok(_) => Refusal::Shapeless,
        Err(refusal) => refusal,
    }
}

// An id and a capacity, as of an added device.
fn add_line(first: &[u8], second: &[u8]) -> Result<HistoryLine, Refusal>
    ensures { result ≡ pair_line Add device_outside (number_in first.now) (capacity_in second.now) }
{
    let Some(id) = number(first) else {
        return Err(Refusal::Shapeless);
    };
    let answer = capacity(second);
    let Ok(value) = answer else {
        return Err(refusal_of(answer));
    };
    if outside(MAX_ID, id) {
        return Err(Refusal::Outside);
    }
    Ok(HistoryLine::Add(id, value))
}

fn resize_line(first: &[u8], second: &[u8]) -> Result<HistoryLine, Refusal>
    ensures { result ≡ pair_line Resize device_outside (number_in first.now) (capacity_in second.now) }
{
    match add_line(first, second) {
        Ok(HistoryLine::Add(id, value)) => Ok(HistoryLine::Resize(id, value)),
        Err(refusal) => Err(refusal),
        _ => Err(Refusal::Shapeless),
    }
}

fn remove_line(word: &[u8]) -> Result<HistoryLine, Refusal>
    ensures { result ≡ remove_line (number_in word.now) }
{
    let Some(id) = number(word) else {
        return Err(Refusal::Shapeless);
    };
    if outside(MAX_ID, id) {
        return Err(Refusal::Outside);
    }
    Ok(HistoryLine::Remove(id))
}

fn three_words(key: &[u8], first: &[u8], second: &[u8]) -> Result<HistoryLine, Refusal>
    ensures { result ≡ three_words key.now first.now second.now }
{
    if key == b"range".as_slice() {
        return range_line(first, second);
    }
    if key == b"add".as_slice() {
        return add_line(first, second);
    }
    if key == b"resize".as_slice() {
        return resize_line(first, second);
    }
    Err(Refusal::Shapeless)
}

// What a line says, without its line end. 1 where it is not one of the four shapes, then 2 where a number
// is outside its limits.
pub fn line(text: &[u8]) -> Result<HistoryLine, Refusal>
    ensures { LineRead text.now result }
{
    let end = find(text, b' ');
    if end == text.len() {
        return Err(Refusal::Shapeless);
    }
    let rest = &text[end + 1..];
    let middle = find(rest, b' ');
    if middle == rest.len() {
        if &text[..end] == b"remove".as_slice() {
            return remove_line(rest);
        }
        return Err(Refusal::Shapeless);
    }
    let tail = &rest[middle + 1..];
    if find(tail, b' ') != tail.len() {
        return Err(Refusal::Shapeless);
    }
    three_words(&text[..end], &rest[..middle], tail)
}

// A line of a text: what it says, and where the next one starts.
#[derive(Clone, Copy)]
pub struct Part {
    pub said: Result<HistoryLine, Refusal>,
    pub next: usize,
}

// The line of a text from a place on. A last line with no line end is refused with 1.
pub fn part_at(text: &[u8], from: usize) -> Part
    requires { from ≤ length text.now }
    ensures { result ≡ part_at text.now from }
{
    let rest = &text[from..];
    let end = find(rest, b'\n');
    if end < rest.len() {
        return Part {
            said: line(&rest[..end]),
            next: from + end + 1,
        };
    }
    Part {
        said: Err(Refusal::Shapeless),
        next: text.len(),
    }
}
