// Reads files, a directory and what cannot be read by `streams`, writes to what takes nothing, and sends
// histories from one to another as `slices` does. Makes its files in the folder that it is run in, and
// removes them. Prints a line for each case, behind a transcript that the case prints.
//
// No program can hold a descriptor that is not open. As closed stands one that is open the other way, which
// the system answers alike; as never opened a reader and writer whose calls fail with that error.
#![tactic(auto)]

use history_streams::Failure;
use std::fs::{File, OpenOptions};
use std::io::{Error, ErrorKind, Read, Write};
use std::{fs, io};

// The system's number of the error that a descriptor is not open for a call.
const BAD_DESCRIPTOR: i32 = 9;

const NULL: &str = "/dev/null";

// What was never opened.
#[derive(Clone, Copy)]
struct Unopened;

impl Read for Unopened {
    fn read(&mut self, _buf: &mut [u8]) -> io::Result<usize> {
        Err(Error::from_raw_os_error(BAD_DESCRIPTOR))
    }
}

impl Write for Unopened {
    fn write(&mut self, _buf: &[u8]) -> io::Result<usize> {
        Err(Error::from_raw_os_error(BAD_DESCRIPTOR))
    }

    fn flush(&mut self) -> io::Result<()> {
        Ok(())
    }
}

fn reason(error: Error) -> &'static str {
    if error.raw_os_error() == Some(BAD_DESCRIPTOR) {
        "bad descriptor"
    } else if error.kind() == ErrorKind::IsADirectory {
        "is a directory"
    } else {
        "another reason"
    }
}

// Reads to the end, and prints how many bytes came, or why none did.
fn read<R: Read>(rt: &HostRuntime, name: &str, input: &mut R) -> io::Result<()> {
    let mut text = history_streams::text_room();
    match streams::read_to_end(input, &mut text) {
        Ok(n) => println!(rt; "{name}: read {n}"),
        Err(error) => {
            let why = reason(error);
            println!(rt; "{name}: not read: {why}")
        }
    }
}

// Writes a line, and prints whether all of it was written, or why not.
fn write<W: Write>(rt: &HostRuntime, name: &str, output: &mut W) -> io::Result<()> {
    match streams::write_all(output, b"table\n") {
        Ok(()) => println!(rt; "{name}: written"),
        Err(error) => {
            let why = reason(error);
            println!(rt; "{name}: not written: {why}")
        }
    }
}

// Sends a history from input to output, and prints what became of it.
fn transcribe<R: Read, W: Write>(
    rt: &HostRuntime,
    name: &str,
    input: &mut R,
    output: &mut W,
) -> io::Result<()> {
    match history_streams::transcribe(input, output) {
        Ok(()) => println!(rt; "{name}: transcript printed"),
        Err(Failure::Unread(error)) => {
            let why = reason(error);
            println!(rt; "{name}: history not read: {why}")
        }
        Err(Failure::Unwritten(error)) => {
            let why = reason(error);
            println!(rt; "{name}: transcript not written: {why}")
        }
    }
}

// Makes a file of n bytes, at most 65,537.
fn make(rt: &HostRuntime, path: &str, n: usize) -> io::Result<()> {
    let text = [b'x'; 65537];
    if n > text.len() {
        return Ok(());
    }
    let mut file = File::create(rt, path)?;
    streams::write_all(&mut file, &text[..n])
}

// Sends the history in a file to output.
fn transcribe_file<W: Write>(rt: &HostRuntime, path: &str, output: &mut W) -> io::Result<()> {
    let mut file = File::open(rt, path)?;
    transcribe(rt, path, &mut file, output)
}

// Reads a file of n bytes, prints the transcript of its text, and sends it to what was never opened.
fn file(rt: &HostRuntime, path: &str, n: usize) -> io::Result<()> {
    make(rt, path, n)?;
    let mut input = File::open(rt, path)?;
    read(rt, path, &mut input)?;
    transcribe_file(rt, path, &mut rt.stdout())?;
    transcribe_file(rt, path, &mut Unopened)?;
    fs::remove_file(rt, path)
}

// A directory is opened as a file is, and not read.
fn directory(rt: &HostRuntime) -> io::Result<()> {
    let mut directory = File::open(rt, ".")?;
    read(rt, "directory", &mut directory)?;
    transcribe(rt, "directory", &mut directory, &mut rt.stdout())
}

fn closed(rt: &HostRuntime) -> io::Result<()> {
    let mut input = OpenOptions::new().write(true).open(rt, NULL)?;
    read(rt, "closed", &mut input)?;
    transcribe(rt, "closed", &mut input, &mut rt.stdout())?;
    let mut output = File::open(rt, NULL)?;
    write(rt, "closed", &mut output)
}

fn never_opened(rt: &HostRuntime) -> io::Result<()> {
    read(rt, "never opened", &mut Unopened)?;
    transcribe(rt, "never opened", &mut Unopened, &mut rt.stdout())?;
    write(rt, "never opened", &mut Unopened)
}

// A full device takes nothing. The same is printed where there is no such device.
fn full_device(rt: &HostRuntime) -> io::Result<()> {
    let opened = OpenOptions::new().write(true).open(rt, "/dev/full");
    let written = match opened {
        Ok(mut device) => streams::write_all(&mut device, b"table\n").is_ok(),
        Err(_) => false,
    };
    if written {
        println!(rt; "full device: written")
    } else {
        println!(rt; "full device: nothing written")
    }
}

fn main(rt: HostRuntime) -> io::Result<()> {
    file(&rt, "file of 0", 0)?;
    file(&rt, "file of 65535", 65535)?;
    file(&rt, "file of 65536", 65536)?;
    file(&rt, "file of 65537", 65537)?;
    directory(&rt)?;
    closed(&rt)?;
    never_opened(&rt)?;
    full_device(&rt)
}
