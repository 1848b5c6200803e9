//! A drive that fails once. The read whose fetch meets the fault ends by it, and the next one has the bytes.

use crate::drives::{CAPACITY, put};
use crate::running::{Told, formatted, host_of, image_after, run, told_of};
use hosts::MemHost;
use hsm_types::ListOf;
use media_model::{Drive, FailingCall, MemDrive, volumes_of};
use std::alloc::{AllocError, Global};
use std::process::Abort;
use std::test::Fail;

/// More calls of a drive than a fetch makes.
const MOST_CALLS: u64 = 20;

/// Leaves a file of three bytes offline, with the object 0 of volume 0 as its copy. The store has the file system id of the name `s`.
const OFFLINE: &str =
    "c1 create a\nc1 write a 0 x:616263\ns0 session 0 me\ns1 setregion 0 304680751394550461.1.1 0:0:7\ns1 seal 0 304680751394550461.1.1 0 0 0 3 ba7816bf8f01cfea414140de5dae2223b00361a396177a9cb410ff61f20015ad\ns1 punch 0 304680751394550461.1.1 0 0\n";

/// Reads the file twice.
const READS: &str = "start recall\nc1 read a 0 3\nsettle\nc1 read a 0 3\nsettle\n";

/// What the caller is told where the drive failed in the fetch for the first read.
const FAILED: &str =
    "c1 read a 0 3 = parked 1\nc1 resume = refused Media failed 0 0 0 1\nc1 read a 0 3 = parked 2\nc1 resume = 616263\n";

/// The same, where it didn't fail.
const FETCHED: &str =
    "c1 read a 0 3 = parked 1\nc1 resume = 616263\nc1 read a 0 3 = parked 2\nc1 resume = 616263\n";

/// The first of two drives, with that object. Of its calls behind the one that has put it there, numbered from 0, that one fails.
/// The object's frame is zeros, as a fetch doesn't compare it.
fn failing_drive(alloc: Global, call: u64) -> Result<MemDrive, Fail> {
    let failing = FailingCall {
        number: call.saturating_add(1),
        kept: None,
    };
    let volumes = volumes_of(alloc, 0, 2, 8)?;
    let mut drive = MemDrive::new(alloc, &volumes, CAPACITY, &[failing])?;
    let mut object = [0u8; 75];
    object[72..].copy_from_slice(b"abc");
    match drive.append(0, &object) {
        Ok(_) => Ok(drive),
        Err(_) => Err("nothing was appended".into()),
    }
}

/// Two drives, of which that call of the first one fails.
fn drives(alloc: Global, call: u64) -> Result<ListOf<MemDrive>, Fail> {
    let mut drives = Vec::new(alloc);
    drives.push(failing_drive(alloc, call)?)?;
    let volumes = volumes_of(alloc, 1, 2, 8)?;
    drives.push(MemDrive::new(alloc, &volumes, CAPACITY, &[])?)?;
    Ok(ListOf::from(drives))
}

fn replayed(alloc: Global, host: &mut MemHost) -> Result<Told, AllocError> {
    told_of(alloc, run(alloc, host, &["replay", "s", "d"], READS)?)
}

/// What is told of both reads on the store of that image, where that call of the drive fails.
fn read_twice(alloc: Global, image: &[u8], call: u64) -> Result<Told, Fail> {
    let mut host = host_of(alloc, image, None)?;
    put(&mut host, drives(alloc, call)?)?;
    Ok(replayed(alloc, &mut host)?)
}

/// The lines that begin with that byte.
fn lines_with(alloc: Global, first: u8, text: &[u8]) -> Result<Vec<u8>, AllocError> {
    let mut lines = Vec::new(alloc);
    let (mut is_new, mut is_kept) = (true, false);
    for byte in text {
        if is_new {
            is_kept = *byte == first;
        }
        if is_kept {
            lines.push(*byte)?;
        }
        is_new = *byte == b'\n';
    }
    Ok(lines)
}

/// Looks whether the caller is told just that.
fn assert_called(
    rt: &(impl Abort + AllocGlobal),
    told: &Told,
    text: &str,
) -> Result<(), AllocError> {
    let lines = lines_with(rt.alloc(), b'c', told.text.as_slice())?;
    assert_eq!(rt; lines.as_slice(), text.as_bytes());
    Ok(())
}

/// Reads twice, where that call of the drive fails. Says whether the first fetch met it.
fn is_fetch_failed(rt: &(impl Abort + AllocGlobal), image: &[u8], call: u64) -> Result<bool, Fail> {
    let told = read_twice(rt.alloc(), image, call)?;
    assert!(rt; told.numbers.status == 0);
    let has_failed = told.numbers.drive_faults == 1;
    assert_called(rt, &told, if has_failed { FAILED } else { FETCHED })?;
    Ok(has_failed)
}

fn offline_image(alloc: Global) -> Result<Vec<u8>, Fail> {
    let empty = formatted(alloc)?;
    image_after(alloc, &empty, OFFLINE)
}

/// Each call of the first fetch fails once.
#[test]
fn a_read_ends_by_a_drive_that_fails_and_the_next_is_answered(rt: HostRuntime) -> Result<(), Fail> {
    let image = offline_image(rt.alloc())?;
    for call in 0..MOST_CALLS {
        if !is_fetch_failed(&rt, &image, call)? {
            assert!(rt; call > 0);
            return Ok(());
        }
    }
    Err("no fetch ended well".into())
}
