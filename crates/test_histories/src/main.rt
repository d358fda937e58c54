// Runs the histories that its arguments name, and compares each transcript with the one that is expected:
// for the argument NAME the file NAME.in has the history and NAME.out what `slices` prints of it. Prints
// each name, and `same`, `different`, or `missing` where one of the two files cannot be read. The files
// are made from test vectors by tools/test_histories.py. Single lines come first.
#![tactic(auto)]

ghost use Rattle.std.specs.Prelude.{IfOk};
ghost use Rattle.streams.specs.Counts.{IsPrefixLen};

use history::ROOM;
use std::fs::File;
use std::io::Write;
use std::{env, io};

mod single_lines;

// One byte more than the longest transcript that is compared. A file that has so many is different.
const MOST_EXPECTED: usize = 1048577;

#[derive(Clone, Copy)]
enum Verdict {
    Same,
    Different,
    Missing,
}

// Opens the file with a name and an ending for reading.
fn open(rt: &HostRuntime, name: &str, ending: &str) -> io::Result<File> {
    let path = format!(in rt.alloc(); "{name}{ending}")?;
    File::open(rt, path.as_str())
}

// Reads a file, or as much of it as there is room for, and closes it.
fn read(mut file: File, bytes: &mut [u8]) -> io::Result<usize>
    ensures { IfOk result (λ n. IsPrefixLen n bytes.new) }
{
    streams::read_to_end(&mut file, bytes)
}

// Whether the transcript of a text is what is expected.
fn agrees(text: &[u8], out: &mut [u8], expected: &[u8]) -> bool {
    match history::transcript(text, out) {
        Ok(n) => n <= out.len() && &out[..n] == expected,
        Err(_) => false,
    }
}

// Runs the history with a name.
fn compare(
    rt: &HostRuntime,
    name: &str,
    text: &mut [u8],
    out: &mut [u8],
    expected: &mut [u8],
) -> Verdict {
    let Ok(text_file) = open(rt, name, ".in") else {
        return Verdict::Missing;
    };
    let Ok(size) = read(text_file, text) else {
        return Verdict::Missing;
    };
    let Ok(expected_file) = open(rt, name, ".out") else {
        return Verdict::Missing;
    };
    let Ok(due) = read(expected_file, expected) else {
        return Verdict::Missing;
    };
    if due == expected.len() {
        return Verdict::Different;
    }
    if agrees(&text[..size], out, &expected[..due]) {
        return Verdict::Same;
    }
    Verdict::Different
}

fn print<W: Write>(out: &mut W, name: &str, verdict: Verdict) -> io::Result<()> {
    match verdict {
        Verdict::Same => writeln!(out, "{name} same"),
        Verdict::Different => writeln!(out, "{name} different"),
        Verdict::Missing => writeln!(out, "{name} missing"),
    }
}

fn main(rt: HostRuntime) -> io::Result<()> {
    let mut printed = rt.stdout();
    single_lines::run(&mut printed)?;
    let mut text = history_streams::text_room();
    let mut expected = [0u8; MOST_EXPECTED];
    let mut out = [0u8; ROOM];
    for name in env::args(&rt)?.skip(1) {
        let name = name.as_str();
        let verdict = compare(&rt, name, &mut text, &mut out, &mut expected);
        print(&mut printed, name, verdict)?;
    }
    Ok(())
}
