// Reads a history from standard input, and prints its transcript: for each line its number, the refusal
// number or 0, the moved points and the number of moves; then the table. What is printed is decided by
// `history`. A history that could not be read, of which nothing is printed, and a transcript that could
// not be written whole are told in a line on standard error.
#![tactic(auto)]

use history_streams::Failure;
use std::fs::OpenOptions;
use std::io::{Error, ErrorKind};
use std::{fs, io};

const UNREAD: &str = "the history could not be read";

const UNWRITTEN: &str = "the transcript could not be written";

const OUTPUT: &str = "/dev/stdout";

// What the system says of an error, whose number std puts behind it.
fn reason(text: &str) -> &str {
    match text.split_once(" (os error ") {
        Some((reason, _number)) => reason,
        None => text,
    }
}

fn tell(rt: &HostRuntime, what: &str, error: Error) -> io::Result<()> {
    let text = format!(in rt.alloc(); "{error}")?;
    let reason = reason(text.as_str());
    eprintln!(rt; "slices: {what}: {reason}")
}

// Waits until what was printed has reached its file; a file system may tell only here that it has no
// room. What is no file, or cannot be opened again, has told all.
fn settle(rt: &HostRuntime) -> io::Result<()> {
    match fs::metadata(rt, OUTPUT) {
        Ok(output) if output.is_file() => {}
        _ => return Ok(()),
    }
    let Ok(file) = OpenOptions::new().append(true).open(rt, OUTPUT) else {
        return Ok(());
    };
    match file.sync_all() {
        Err(error) if error.kind() != ErrorKind::InvalidInput => Err(error),
        _ => Ok(()),
    }
}

fn main(rt: HostRuntime) -> io::Result<()> {
    match history_streams::transcribe(&mut rt.stdin(), &mut rt.stdout()) {
        Ok(()) => match settle(&rt) {
            Ok(()) => Ok(()),
            Err(error) => tell(&rt, UNWRITTEN, error),
        },
        Err(Failure::Unread(error)) => tell(&rt, UNREAD, error),
        Err(Failure::Unwritten(error)) => tell(&rt, UNWRITTEN, error),
    }
}
