//! A fault at each call of the disk.

use crate::running::{
    NOTHING, Numbers, Told, assert_told, format, formatted, run_on_image, told_of,
};
use std::alloc::{AllocError, Global};
use std::process::Abort;
use std::test::Fail;

/// More calls of a disk than any run here makes.
const MOST_CALLS: u64 = 200;

/// What is told where a call of the disk failed.
const FAILED: Numbers = Numbers {
    status: 6,
    disk_faults: Some(1),
    ..NOTHING
};

/// Makes a small store, whose disk passes so many calls on.
fn format_with(alloc: Global, calls: u64) -> Result<Told, AllocError> {
    told_of(alloc, format(alloc, Some(calls))?)
}

/// Makes a small store, whose disk passes so many calls on. Says whether that met a fault.
fn is_format_stopped(rt: &(impl Abort + AllocGlobal), calls: u64) -> Result<bool, AllocError> {
    let told = format_with(rt.alloc(), calls)?;
    if told.numbers.status == 0 {
        return Ok(false);
    }
    assert_told(rt, &told, FAILED, b"");
    Ok(true)
}

#[test]
fn each_call_of_a_format_fails(rt: HostRuntime) -> Result<(), Fail> {
    for calls in 0..MOST_CALLS {
        if !is_format_stopped(&rt, calls)? {
            assert!(rt; calls > 0);
            return Ok(());
        }
    }
    Err("no format ended well".into())
}

const SCRIPT: &str = "c1 create a\nc1 sync\nc1 write a 0 x:6162\n";

/// The transcript of a run whose last entry met a fault, by the number of its entries.
const STOPPED: [&str; 5] = [
    "",
    "c1 create a = refused Disk\n",
    "c1 create a = made 1.1\nc1 sync = refused Disk\n",
    "c1 create a = made 1.1\nc1 sync = done\nc1 write a 0 6162 = refused Disk\n",
    "c1 create a = made 1.1\nc1 sync = done\nc1 write a 0 6162 = done\nstore commit = refused Disk\n",
];

/// Runs the script on the store of that image, whose disk passes so many calls on.
fn replay_with(alloc: Global, image: &[u8], calls: u64) -> Result<Told, AllocError> {
    told_of(alloc, run_on_image(alloc, image, Some(calls), SCRIPT)?)
}

fn assert_stopped(rt: &impl Abort, told: &Told) {
    let entries = told.numbers.entries;
    let transcript = STOPPED.get(entries).copied().unwrap_or("no such run");
    assert_told(
        rt,
        told,
        Numbers { entries, ..FAILED },
        transcript.as_bytes(),
    );
}

/// Runs the script on the store of that image, whose disk passes so many calls on. Gives the number of entries where that
/// met a fault.
fn stopped_after(
    rt: &(impl Abort + AllocGlobal),
    image: &[u8],
    calls: u64,
) -> Result<Option<usize>, AllocError> {
    let told = replay_with(rt.alloc(), image, calls)?;
    if told.numbers.status == 0 {
        return Ok(None);
    }
    assert_stopped(rt, &told);
    Ok(Some(told.numbers.entries))
}

/// Each call of the disk fails. Says for each number of entries whether a run has stopped after it.
fn stops(rt: &(impl Abort + AllocGlobal), image: &[u8]) -> Result<[bool; 5], Fail> {
    let mut met = [false; STOPPED.len()];
    for calls in 0..MOST_CALLS {
        let Some(entries) = stopped_after(rt, image, calls)? else {
            return Ok(met);
        };
        if let Some(met) = met.get_mut(entries) {
            *met = true;
        }
    }
    Err("no run ended well".into())
}

/// The calls of the opening, of the sync and of the last commit are among those that fail.
#[test]
fn each_call_of_a_replay_fails(rt: HostRuntime) -> Result<(), Fail> {
    let image = formatted(rt.alloc())?;
    let met = stops(&rt, &image)?;
    assert!(rt; met[0] && met[2] && met[4]);
    Ok(())
}
