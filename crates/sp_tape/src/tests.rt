use crate::run_tape::{Ran, run};
use crate::status::Status;
use sp_disk::disk::Disk;
use sp_disk::memory::MemoryDisk;
use sp_stream::memory::{MemorySink, MemorySource};
use std::alloc::{AllocError, Global};
use std::test::Fail;

// A queue is provisioned, a message is published, and both are counted.
pub const SMALLEST: [(&str, &str); 3] = [
    (
        r#"{"op":"provision","endpoint":"q1"}"#,
        r#"{"endpoint":"q1","number":1,"ok":"provision","unit":1}"#,
    ),
    (
        r#"{"op":"publish","queue":"q1","payload":"hello"}"#,
        r#"{"copies":[{"copy":1,"endpoint":"q1","fate":"spooled"}],"message":1,"ok":"publish","unit":2}"#,
    ),
    (
        r#"{"op":"tally","endpoint":"q1"}"#,
        r#"{"accepted":0,"causes":{},"discarded":0,"made":1,"moved":0,"ok":"tally","spooled":1,"unit":2,"used":71}"#,
    ),
];

// The offset behind each of those entries.
const ENDS: [usize; 3] = [50, 113, 159];

// A tape, and the lines that answer it.
#[derive(Drop)]
pub struct Exchange {
    pub tape: Vec<u8>,
    pub lines: Vec<u8>,
}

// The entry of a request of ann at moment 0, with its length counted; an empty one is a restart.
fn entry(alloc: Global, request: &str) -> Result<String, AllocError> {
    if request.is_empty() {
        return String::from_str(alloc, "@ann restart 0 0\n\n");
    }
    let len = request.len();
    format!(in alloc; "@ann flow 0 {len}\n{request}\n")
}

// The tape of requests, and their replies.
pub fn exchanged(alloc: Global, turns: &[(&str, &str)]) -> Result<Exchange, AllocError> {
    let mut tape = Vec::new(alloc);
    let mut lines = Vec::new(alloc);
    for (request, reply) in turns {
        tape.extend_from_slice(entry(alloc, request)?.as_bytes())?;
        lines.extend_from_slice(reply.as_bytes())?;
        lines.push(b'\n')?;
    }
    Ok(Exchange { tape, lines })
}

// Whether each request is answered by its reply, and the run is done.
pub fn is_answered(alloc: Global, turns: &[(&str, &str)]) -> Result<bool, AllocError> {
    let told = exchanged(alloc, turns)?;
    let ran = ran(alloc, "run", told.tape.as_slice(), 4096, &[], &[])?;
    Ok(ran.status == Status::Done && ran.output.as_slice() == told.lines.as_slice())
}

#[derive(Drop)]
pub struct Ended {
    pub status: Status,
    pub output: Vec<u8>,
}

// The words of a line.
fn words_of(alloc: Global, line: &str) -> Result<Vec<String>, AllocError> {
    let mut words = Vec::new(alloc);
    for word in line.split(' ') {
        words.push(String::from_str(alloc, word)?)?;
    }
    Ok(words)
}

// What a run over a disk gave.
#[derive(Drop)]
pub struct Over<D> {
    pub status: Status,
    pub output: Vec<u8>,
    pub disk: D,
}

// Runs words over a tape and a disk.
pub fn ran_over<D: Disk + Drop>(
    alloc: Global,
    line: &str,
    tape: &[u8],
    disk: D,
) -> Result<Over<D>, AllocError> {
    let words = words_of(alloc, line)?;
    let bytes = Vec::from_slice(alloc, tape)?;
    let mut source = MemorySource::new(bytes, 4096, Vec::new(alloc));
    let mut sink = MemorySink::new(alloc, 4096, Vec::new(alloc));
    let Ran { status, disk } = run(words.as_slice(), &mut source, &mut sink, disk, alloc);
    let output = Vec::from_slice(alloc, sink.as_slice())?;
    Ok(Over {
        status,
        output,
        disk,
    })
}

// Runs words over a tape that comes in pieces, into a sink that takes pieces.
pub fn ran(
    alloc: Global,
    line: &str,
    tape: &[u8],
    piece: usize,
    failing_reads: &[u64],
    failing_writes: &[u64],
) -> Result<Ended, AllocError> {
    let words = words_of(alloc, line)?;
    let bytes = Vec::from_slice(alloc, tape)?;
    let mut source = MemorySource::new(bytes, piece, Vec::from_slice(alloc, failing_reads)?);
    let mut sink = MemorySink::new(alloc, piece, Vec::from_slice(alloc, failing_writes)?);
    let disk = MemoryDisk::new(alloc);
    let status = run(words.as_slice(), &mut source, &mut sink, disk, alloc).status;
    let output = Vec::from_slice(alloc, sink.as_slice())?;
    Ok(Ended { status, output })
}

#[test]
fn words_that_are_no_form_are_told(rt: HostRuntime) -> Result<(), Fail> {
    let alloc = rt.alloc();
    for (words, status) in [
        ("run", Status::Done),
        ("check", Status::Done),
        ("run --max 14", Status::Done),
        ("run --max 4294967296", Status::Done),
        ("start", Status::Usage),
        ("", Status::Usage),
        ("run run", Status::Usage),
        ("run --max", Status::Usage),
        ("run --max 13", Status::Usage),
        ("run --max 4294967297", Status::Usage),
        ("run --max 014", Status::Usage),
        ("run --min 14", Status::Usage),
        ("check --max 14", Status::Usage),
        ("run --max 14 15", Status::Usage),
    ] {
        assert_eq!(rt; ran(alloc, words, b"", 9, &[], &[])?.status, status);
    }
    Ok(())
}

#[test]
fn the_output_is_the_same_in_any_pieces(rt: HostRuntime) -> Result<(), Fail> {
    let alloc = rt.alloc();
    let told = exchanged(alloc, &SMALLEST)?;
    for piece in [1, 7, 4096] {
        let ran = ran(alloc, "run", told.tape.as_slice(), piece, &[], &[])?;
        assert_eq!(rt; ran.status, Status::Done);
        assert!(rt; ran.output.as_slice() == told.lines.as_slice());
    }
    Ok(())
}

#[test]
fn a_tape_that_is_cut_is_answered_up_to_there(rt: HostRuntime) -> Result<(), Fail> {
    let alloc = rt.alloc();
    let whole = exchanged(alloc, &SMALLEST)?;
    for cut in 0..whole.tape.len() {
        let ran = ran(alloc, "run", &whole.tape[..cut], 4096, &[], &[])?;
        let before = ENDS.iter().filter(|end| **end <= cut).count();
        let offset = if before == 0 { 0 } else { ENDS[before - 1] };
        let lines = exchanged(alloc, &SMALLEST[..before])?.lines;
        assert!(rt; ran.output.as_slice() == lines.as_slice());
        if offset == cut {
            assert_eq!(rt; ran.status, Status::Done);
        } else {
            let (entry, offset) = (before as u64 + 1, offset as u64);
            assert_eq!(rt; ran.status, Status::BadTape { entry, offset });
        }
    }
    Ok(())
}

#[test]
fn a_stream_that_fails_ends_the_run(rt: HostRuntime) -> Result<(), Fail> {
    let alloc = rt.alloc();
    let whole = exchanged(alloc, &SMALLEST)?;
    let read = ran(alloc, "run", whole.tape.as_slice(), 4096, &[1], &[])?;
    assert_eq!(rt; read.status, Status::ReadFault);
    assert!(rt; read.output.as_slice().is_empty());
    // The first line is written and flushed; the second write fails.
    let written = ran(alloc, "run", whole.tape.as_slice(), 4096, &[], &[3])?;
    assert_eq!(rt; written.status, Status::WriteFault);
    let first = exchanged(alloc, &SMALLEST[..1])?.lines;
    assert!(rt; written.output.as_slice() == first.as_slice());
    Ok(())
}

#[test]
fn what_is_no_entry_is_told_at_once(rt: HostRuntime) -> Result<(), Fail> {
    let alloc = rt.alloc();
    for tape in [
        &b"ann flow 0 0\n\n"[..],
        &b"@ann flow 00 0\n\n"[..],
        &b"@ann flow 9007199254740992 0\n\n"[..],
        &b"@ann flow 0 8388609\n\n"[..],
        &b"@ann restart 0 1\nx\n"[..],
        &b"@ann mail 0 0\n\n"[..],
        &b"@ann flow 0 1\nxy"[..],
        &b"@ flow 0 0\n\n"[..],
    ] {
        // The second read would fail, and isn't made.
        let ran = ran(alloc, "run", tape, 4096, &[2], &[])?;
        assert_eq!(rt;
            ran.status,
            Status::BadTape {
                entry: 1,
                offset: 0
            }
        );
    }
    Ok(())
}

#[test]
fn the_other_kinds_are_bad_requests(rt: HostRuntime) -> Result<(), Fail> {
    let alloc = rt.alloc();
    for tape in [&b"@ann http 0 0\n\n"[..], &b"@ann rdp 0 0\n\n"[..]] {
        let ran = ran(alloc, "run", tape, 4096, &[], &[])?;
        assert_eq!(rt; ran.status, Status::Done);
        let line = "{\"refused\":{\"at\":1,\"no\":1,\"rule\":\"BadRequest\"},\"unit\":0}\n";
        assert!(rt; ran.output.as_slice() == line.as_bytes());
    }
    Ok(())
}
