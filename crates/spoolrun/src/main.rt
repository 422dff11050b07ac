//! Runs a tape of requests from standard input over the journal of the current folder, and writes the answers
//! to standard output; or looks at the journal.
#![tactic(auto)]

use sp_disk::folder::FolderDisk;
use sp_stream::real::{ReaderSource, WriterSink};
use sp_tape::run_tape::run;
use sp_tape::status::Status;
use std::process::ExitCode;
use std::{env, io};

fn main(rt: HostRuntime) -> io::Result<ExitCode> {
    let mut words = Vec::new(rt.alloc());
    for word in env::args(&rt)?.skip(1) {
        words.push(word)?;
    }
    let mut source = ReaderSource::new(rt.reader());
    let mut sink = WriterSink::new(io::writer(&rt));
    let disk = FolderDisk::new(&rt);
    let ran = run(words.as_slice(), &mut source, &mut sink, disk, rt.alloc());
    tell(&rt, ran.status)?;
    Ok(ExitCode::from(ran.status.number()))
}

// Prints the status's line on standard error.
fn tell(rt: &(impl Eprint + AllocGlobal), status: Status) -> io::Result<()> {
    match status.line(rt.alloc())? {
        Some(line) => rt.eprintln(line.as_str()),
        None => Ok(()),
    }
}
