//! The host in memory, and files as disks.

use disk_model::{Disk, FuseDisk, MemDisk, read_at, sync_all, write_at};
use hosts::{FileDisk, FileHost, Host, MemFile, MemHost};
use std::alloc::{AllocError, Global};
use std::process::Abort;
use std::test::Fail;
use std::{env, fs, process};

/// How long the disk of that name is, where the host hands it out.
fn length_of<H: Host>(host: &mut H, name: &str) -> Option<u64> {
    match host.disk(name) {
        Ok(disk) => Some(disk.len()),
        Err(_) => None,
    }
}

/// How long the disk is that the host makes, where it makes one.
fn length_made<H: Host>(host: &mut H, name: &str, len: u64) -> Option<u64> {
    match host.make(name, len) {
        Ok(disk) => Some(disk.len()),
        Err(_) => None,
    }
}

/// Writes two bytes of a disk that passes one call on, so that it fails to sync.
fn is_written_once<D: Disk>(disk: &mut D) -> bool {
    disk.len() == 4
        && write_at(disk, 1, &[7, 8]).is_ok()
        && sync_all(disk).is_err()
        && disk.faults() == 1
}

/// Makes a disk, writes it, and puts it under the name, under which nothing is in between.
fn is_put(host: &mut MemHost, name: &str) -> bool {
    let Ok(mut disk) = host.make(name, 4) else {
        return false;
    };
    let is_written = is_written_once(&mut disk) && host.image(name).is_none();
    let is_back = host.put_disk(name, disk).is_ok();
    is_written && is_back
}

/// Whether the disk is at rest: all is synced, no fault is counted, and no call is left to pass on.
fn is_settled(disk: &FuseDisk<MemDisk>) -> bool {
    disk.inner().unsynced_writes() == 0 && disk.faults() == 0 && disk.fuse() == Some(0)
}

/// Whether the disk that the host hands out is at rest, and its name holds nothing then.
fn is_given_settled(host: &mut MemHost, name: &str) -> bool {
    let Ok(disk) = host.disk(name) else {
        return false;
    };
    is_settled(&disk) && host.image(name).is_none()
}

fn holds(host: &MemHost, name: &str, image: &[u8]) -> bool {
    host.image(name) == Some(image)
}

fn assert_keeps_disks(rt: &impl Abort, host: &mut MemHost) {
    assert!(rt; is_put(host, "a") && is_put(host, "b"));
    for name in ["a", "b"] {
        assert!(rt; holds(host, name, &[0, 7, 8, 0]));
        assert!(rt; is_given_settled(host, name));
    }
}

#[test]
fn a_disk_is_made_with_the_fuse_and_put_back(rt: HostRuntime) {
    let mut host = MemHost::new(rt.alloc(), Vec::new(rt.alloc()));
    host.fuse_made(Some(1));
    assert_keeps_disks(&rt, &mut host);
}

/// Names of disks that a host is asked for, how long they are where they are handed out, and its faults after that. The
/// first of these calls fails, there is no disk for the second, and what was handed out isn't there again.
const ASKED: [(&str, Option<u64>, u64); 4] = [
    ("a", None, 1),
    ("b", None, 2),
    ("a", Some(4), 2),
    ("a", None, 3),
];

fn is_answered(host: &mut MemHost, name: &str, length: Option<u64>, faults: u64) -> bool {
    length_of(host, name) == length && host.faults() == faults
}

fn assert_fails(rt: &impl Abort, host: &mut MemHost) {
    assert!(rt; is_put(host, "a"));
    for (name, length, faults) in ASKED {
        assert!(rt; is_answered(host, name, length, faults));
    }
    assert!(rt; length_made(host, "b", 3) == Some(3));
}

#[test]
fn a_host_fails_at_its_calls_and_without_a_disk(rt: HostRuntime) -> Result<(), Fail> {
    let mut host = MemHost::new(rt.alloc(), vec![in rt.alloc(); 1]?);
    host.fuse_made(Some(1));
    assert_fails(&rt, &mut host);
    Ok(())
}

/// A path of this process alone, in the folder for what is temporary.
fn path_of(rt: &HostRuntime, name: &str) -> Result<String, Fail> {
    let folder = env::temp_dir(rt)?;
    let id = process::id(rt.process());
    Ok(format!(in rt.alloc(); "{}/hsm-{name}-{id}", folder.as_str())?)
}

/// What reads give from the byte 3 on, where they fit.
fn six_bytes<D: Disk>(disk: &mut D) -> Option<[u8; 6]> {
    let mut buf = [9; 6];
    if disk.len() == 10 && read_at(disk, 3, &mut buf).is_ok() {
        Some(buf)
    } else {
        None
    }
}

/// Whether three bytes are written from the byte 4 on, and synced.
fn is_kept<D: Disk>(disk: &mut D) -> bool {
    disk.len() == 10 && write_at(disk, 4, &[1, 2, 3]).is_ok() && sync_all(disk).is_ok()
}

/// Whether it gives what was written, with no fault.
fn is_disk<D: Disk>(disk: &mut D) -> bool {
    is_kept(disk) && six_bytes(disk) == Some([0, 1, 2, 3, 0, 0]) && disk.faults() == 0
}

/// Whether a read past its end is a fault.
fn is_too_short<D: Disk>(disk: &mut D) -> bool {
    six_bytes(disk).is_none() && disk.faults() == 1
}

/// Whether a disk of ten bytes is made of the path, which nobody else gets as long as it is there.
fn is_made<H: Host>(host: &mut H, path: &str) -> bool {
    let Ok(mut disk) = host.make(path, 10) else {
        return false;
    };
    let is_ours = length_made(host, path, 5).is_none() && length_of(host, path).is_none();
    is_ours && is_disk(&mut disk)
}

/// Whether a path where nothing is yet is a fault, and a disk once one was made. There are three faults then.
fn opens<H: Host>(host: &mut H, path: &str) -> bool {
    length_of(host, path).is_none()
        && is_made(host, path)
        && length_of(host, path) == Some(10)
        && host.faults() == 3
}

/// Whether a folder is no disk, and none is made of it. These are two faults more.
fn refuses<H: Host>(host: &mut H, folder: &str) -> bool {
    length_of(host, folder).is_none()
        && length_made(host, folder, 1).is_none()
        && host.faults() == 5
}

/// Whether a file that becomes shorter than its disk is a fault.
fn is_cut(rt: &HostRuntime, path: &str) -> bool {
    match FileHost::new(rt.alloc(), rt).disk(path) {
        Ok(mut disk) => fs::write(rt, path, "short").is_ok() && is_too_short(&mut disk),
        Err(_) => false,
    }
}

fn assert_serves<H: Host>(rt: &impl Abort, host: &mut H, path: &str, folder: &str) {
    assert!(rt; opens(host, path));
    assert!(rt; refuses(host, folder));
}

#[test]
fn a_file_is_a_disk(rt: HostRuntime) -> Result<(), Fail> {
    let path = path_of(&rt, "disk")?;
    let folder = env::temp_dir(&rt)?;
    assert_serves(
        &rt,
        &mut FileHost::new(rt.alloc(), &rt),
        path.as_str(),
        folder.as_str(),
    );
    assert!(rt; is_cut(&rt, path.as_str()));
    fs::remove_file(&rt, path.as_str())?;
    Ok(())
}

/// A file in memory of ten zeros, whose calls move at most so many bytes.
fn file_of(alloc: Global, most: usize, is_free: bool) -> Result<MemFile, AllocError> {
    let disk = MemDisk::new(alloc, &[0; 10], &[])?;
    Ok(MemFile::new(disk, most, is_free))
}

/// Whether the file is opened as a disk, and gives what was written.
fn is_disk_of(file: MemFile) -> bool {
    match FileDisk::open(file) {
        Ok(mut disk) => is_disk(&mut disk),
        Err(_) => false,
    }
}

#[test]
fn a_file_in_memory_is_a_disk(rt: HostRuntime) -> Result<(), Fail> {
    for most in [1, 2, 10] {
        assert!(rt; is_disk_of(file_of(rt.alloc(), most, true)?));
    }
    assert!(rt; !is_disk_of(file_of(rt.alloc(), 0, true)?));
    assert!(rt; !is_disk_of(file_of(rt.alloc(), 10, false)?));
    Ok(())
}
