//! Runs of the top call over memory, and what is told of them. The store as it was opened is let go in `ended` alone, and
//! in a function that does nothing else, since proving costs much more where both are done.

use disk_model::{Disk, FuseDisk, MemDisk};
use hosts::{MemHost, MemorySink, MemorySource, Sink, Source};
use hsm_cli::{Outcome, hsm_main};
use hsm_types::ListOf;
use media_model::{Drive, MemDrive};
use plain_model::History;
use std::alloc::{AllocError, Global};
use std::process::Abort;
use std::test::Fail;

/// How the calls of a stream go: at most so many bytes each, and one of them, numbered from 0, may fail.
#[derive(Clone, Copy)]
pub(crate) struct Calls {
    pub piece: usize,
    pub failing: Option<u64>,
}

/// All bytes at once, and no fault.
pub(crate) const WELL: Calls = Calls {
    piece: 1000,
    failing: None,
};

/// What an outcome has but for the store.
#[derive(Drop)]
pub(crate) struct Ending {
    pub status: u8,
    pub at: u64,
    pub base: u64,
    pub history: History,
    pub disk: Option<FuseDisk<MemDisk>>,
    pub drives: ListOf<MemDrive>,
}

/// A run that ended, with its streams.
#[derive(Drop)]
pub(crate) struct Ran {
    pub ending: Ending,
    source: MemorySource,
    sink: MemorySink,
}

/// The numbers that are told of a run. Faults of the disk are told where one came back, and those of the drives that came
/// back are added.
#[derive(Clone, Copy, Debug, PartialEq, Eq)]
pub(crate) struct Numbers {
    pub status: u8,
    pub at: u64,
    pub base: u64,
    pub entries: usize,
    pub source_faults: u64,
    pub sink_faults: u64,
    pub disk_faults: Option<u64>,
    pub drive_faults: u64,
}

/// What is told of a run that did nothing and ended well.
pub(crate) const NOTHING: Numbers = Numbers {
    status: 0,
    at: 0,
    base: 0,
    entries: 0,
    source_faults: 0,
    sink_faults: 0,
    disk_faults: None,
    drive_faults: 0,
};

/// What is told of a run: its numbers, and what its sink took.
#[derive(Drop)]
pub(crate) struct Told {
    pub numbers: Numbers,
    pub text: Vec<u8>,
}

fn ended(outcome: Outcome<FuseDisk<MemDisk>, MemDrive>) -> Ending {
    Ending {
        status: outcome.status,
        at: outcome.at,
        base: outcome.base,
        history: outcome.history,
        disk: outcome.disk,
        drives: outcome.drives,
    }
}

fn strings(alloc: Global, words: &[&str]) -> Result<Vec<String>, AllocError> {
    let mut strings = Vec::new(alloc);
    for word in words {
        strings.push(word.to_string(alloc)?)?;
    }
    Ok(strings)
}

fn failing_calls(alloc: Global, number: Option<u64>) -> Result<Vec<u64>, AllocError> {
    let mut numbers = Vec::new(alloc);
    if let Some(number) = number {
        numbers.push(number)?;
    }
    Ok(numbers)
}

fn source(alloc: Global, script: &str, calls: Calls) -> Result<MemorySource, AllocError> {
    let script = script.as_bytes().to_vec(alloc)?;
    let failing = failing_calls(alloc, calls.failing)?;
    Ok(MemorySource::new(script, calls.piece.max(1), failing))
}

fn sink(alloc: Global, calls: Calls) -> Result<MemorySink, AllocError> {
    let failing = failing_calls(alloc, calls.failing)?;
    Ok(MemorySink::new(alloc, calls.piece, failing))
}

/// Does what the words say, with streams whose calls go so.
pub(crate) fn run_with(
    alloc: Global,
    host: &mut MemHost,
    words: &[&str],
    script: &str,
    reads: Calls,
    writes: Calls,
) -> Result<Ran, AllocError> {
    let words = strings(alloc, words)?;
    let mut source = source(alloc, script, reads)?;
    let mut sink = sink(alloc, writes)?;
    let ending = ended(hsm_main(alloc, words.as_slice(), host, &mut source, &mut sink));
    Ok(Ran {
        ending,
        source,
        sink,
    })
}

/// Does what the words say, with streams that don't fail.
pub(crate) fn run(
    alloc: Global,
    host: &mut MemHost,
    words: &[&str],
    script: &str,
) -> Result<Ran, AllocError> {
    run_with(alloc, host, words, script, WELL, WELL)
}

/// Runs a script on a new store in memory.
pub(crate) fn replayed(
    alloc: Global,
    script: &str,
    reads: Calls,
    writes: Calls,
) -> Result<Ran, AllocError> {
    let mut host = MemHost::new(alloc, Vec::new(alloc));
    run_with(alloc, &mut host, &["replay"], script, reads, writes)
}

fn faults_of(disk: &FuseDisk<MemDisk>) -> u64 {
    disk.faults()
}

fn faults_in(drives: &[MemDrive]) -> u64 {
    let mut faults: u64 = 0;
    for drive in drives {
        faults = faults.saturating_add(drive.faults());
    }
    faults
}

fn numbers_of(ran: &Ran) -> Numbers {
    Numbers {
        status: ran.ending.status,
        at: ran.ending.at,
        base: ran.ending.base,
        entries: ran.ending.history.as_slice().len(),
        source_faults: ran.source.faults(),
        sink_faults: ran.sink.faults(),
        disk_faults: ran.ending.disk.as_ref().map(faults_of),
        drive_faults: faults_in(ran.ending.drives.as_slice()),
    }
}

fn told_by(alloc: Global, ran: &Ran) -> Result<Told, AllocError> {
    Ok(Told {
        numbers: numbers_of(ran),
        text: ran.sink.bytes().to_vec(alloc)?,
    })
}

/// What is told of a run, which is let go.
pub(crate) fn told_of(alloc: Global, ran: Ran) -> Result<Told, AllocError> {
    told_by(alloc, &ran)
}

/// Looks whether just that is told.
pub(crate) fn assert_told(rt: &impl Abort, told: &Told, numbers: Numbers, text: &[u8]) {
    assert_eq!(rt; told.numbers, numbers);
    assert_eq!(rt; told.text.as_slice(), text);
}

/// A host that has one disk with that image, under the name `s`.
pub(crate) fn host_of(
    alloc: Global,
    image: &[u8],
    fuse: Option<u64>,
) -> Result<MemHost, AllocError> {
    let mut disk = FuseDisk::unset(MemDisk::new(alloc, image, &[])?);
    disk.set_fuse(fuse);
    let mut host = MemHost::new(alloc, Vec::new(alloc));
    match host.put_disk("s", disk) {
        Ok(()) => Ok(host),
        Err((refusal, _)) => Err(refusal),
    }
}

/// Runs a script on the store of that image, whose disk may have a fuse.
pub(crate) fn run_on_image(
    alloc: Global,
    image: &[u8],
    fuse: Option<u64>,
    script: &str,
) -> Result<Ran, AllocError> {
    let mut host = host_of(alloc, image, fuse)?;
    run(alloc, &mut host, &["replay", "s", "d"], script)
}

/// Makes a small store, whose disk may have a fuse.
pub(crate) fn format(alloc: Global, fuse: Option<u64>) -> Result<Ran, AllocError> {
    let mut host = MemHost::new(alloc, Vec::new(alloc));
    host.fuse_made(fuse);
    run(alloc, &mut host, &["format", "s", "small"], "")
}

fn image_by(alloc: Global, ran: &Ran) -> Result<Vec<u8>, Fail> {
    match &ran.ending.disk {
        Some(disk) if ran.ending.status == 0 => Ok(disk.inner().bytes().to_vec(alloc)?),
        _ => Err("the run did not end well".into()),
    }
}

/// The image that a run has left, which is let go.
fn image_of(alloc: Global, ran: Ran) -> Result<Vec<u8>, Fail> {
    image_by(alloc, &ran)
}

/// The image of an empty small store.
pub(crate) fn formatted(alloc: Global) -> Result<Vec<u8>, Fail> {
    image_of(alloc, format(alloc, None)?)
}

/// The image that a script leaves of the store of that image.
pub(crate) fn image_after(alloc: Global, image: &[u8], script: &str) -> Result<Vec<u8>, Fail> {
    image_of(alloc, run_on_image(alloc, image, None, script)?)
}
