//! Disks in memory: what fails, what is counted, and what a crash may leave, against lists by hand.
ghost use Rattle.std.specs.Prelude.{◌≡◌, ◌≤◌, length, IfOk};
ghost use Rattle.disk_model.specs.Medium.{medium_of};

use disk_model::{Disk, Failed, FuseDisk, MemDisk, SureDisk, read_at, sync_all, write_at};
use std::alloc::{AllocError, Global};
use std::test::Fail;

/// What is done with a disk.
#[derive(Clone, Copy)]
enum Step {
    Write(u64, &'static [u8]),
    Sync,
    ResetFaults,
    Settle,
}

fn take(disk: &mut MemDisk, step: Step) {
    match step {
        Step::Write(at, bytes) => write(disk, at, bytes),
        Step::Sync => {
            let _done = disk.sync();
        }
        Step::ResetFaults => disk.reset_faults(),
        Step::Settle => disk.settle(),
    }
}

/// Writes what lies within the disk.
fn write(disk: &mut MemDisk, at: u64, bytes: &[u8]) {
    let len = disk.len();
    if at <= len && bytes.len() as u64 <= len - at {
        let _done = disk.write(at, bytes);
    }
}

/// A disk of the digits of six zeros after these steps, where the calls with these numbers fail.
fn disk_after(alloc: Global, failing: &[u64], steps: &[Step]) -> Option<MemDisk> {
    let mut disk = MemDisk::new(alloc, b"000000", failing).ok()?;
    for step in steps {
        take(&mut disk, *step);
    }
    Some(disk)
}

/// The failing calls, the steps, and the images that a crash may leave then.
type Listing = (&'static [u64], &'static [Step], &'static [&'static [u8; 6]]);

/// Each subset of up to four writes; of more, each alone and each with all before it. Then of each write the front behind all before it, and the back
/// alone. Then what the last sync left, and what is read.
static LISTINGS: [Listing; 7] = [
    (&[], &[], &[b"000000", b"000000", b"000000"]),
    (
        &[],
        &[Step::Write(0, b"12"), Step::Write(1, b"34")],
        &[
            b"000000", b"120000", b"034000", b"134000", b"100000", b"020000", b"130000", b"004000",
            b"000000", b"134000",
        ],
    ),
    (
        &[],
        &[Step::Write(0, b"12"), Step::Write(1, b"34"), Step::Sync],
        &[b"134000", b"134000", b"134000"],
    ),
    (
        &[1],
        &[Step::Write(0, b"1"), Step::Write(2, b"56")],
        &[
            b"000000", b"100000", b"005600", b"105600", b"000000", b"100000", b"105000", b"000600",
            b"000000", b"100000",
        ],
    ),
    (
        &[1],
        &[Step::Write(0, b"1"), Step::Sync],
        &[
            b"000000", b"100000", b"000000", b"100000", b"000000", b"100000",
        ],
    ),
    (
        &[1],
        &[Step::Write(0, b"1"), Step::Write(2, b"56"), Step::Settle],
        &[b"100000", b"100000", b"100000"],
    ),
    (
        &[],
        &[
            Step::Write(0, b"11"),
            Step::Write(1, b"22"),
            Step::Write(2, b"33"),
            Step::Write(3, b"44"),
            Step::Write(4, b"55"),
        ],
        &[
            b"110000", b"110000", b"022000", b"122000", b"003300", b"123300", b"000440", b"123440",
            b"000055", b"123455", b"100000", b"010000", b"120000", b"002000", b"123000", b"000300",
            b"123400", b"000040", b"123450", b"000005", b"000000", b"123455",
        ],
    ),
];

/// Whether the images are these words.
fn are(images: &[Vec<u8>], words: &[&[u8; 6]]) -> bool {
    for (image, word) in images.iter().zip(words) {
        if image.as_slice() != word.as_slice() {
            return false;
        }
    }
    images.len() == words.len()
}

fn images(disk: MemDisk) -> Option<Vec<Vec<u8>>> {
    disk.crash_images().ok()
}

/// Whether these images are listed, `None` for want of memory.
fn are_listed(alloc: Global, listing: &Listing) -> Option<bool> {
    let disk = disk_after(alloc, listing.0, listing.1)?;
    let images = images(disk)?;
    Some(are(images.as_slice(), listing.2))
}

#[test]
fn memory_lists_what_a_crash_may_leave(rt: HostRuntime) {
    for (place, listing) in LISTINGS.iter().enumerate() {
        assert!(rt;
            are_listed(rt.alloc(), listing) == Some(true),
            "row {place}"
        );
    }
}

/// The failing calls, the steps, and how many calls, faults and unsynced writes are counted then.
type Counting = (&'static [u64], &'static [Step], usize, u64, usize);

const THREE: [Step; 3] = [Step::Write(0, b"1"), Step::Write(2, b"56"), Step::Sync];

static COUNTINGS: [Counting; 6] = [
    (&[3], &THREE, 3, 0, 0),
    (&[0], &THREE, 3, 1, 0),
    (&[1, 2], &THREE, 3, 2, 2),
    (
        &[1],
        &[Step::Write(0, b"1"), Step::Sync, Step::ResetFaults],
        2,
        0,
        1,
    ),
    (
        &[1],
        &[Step::Write(0, b"1"), Step::Sync, Step::Settle],
        0,
        0,
        0,
    ),
    (
        &[0],
        &[Step::Write(0, b"1"), Step::Settle, Step::Write(0, b"1")],
        1,
        1,
        1,
    ),
];

fn has_counts(disk: MemDisk, calls: usize, faults: u64, unsynced: usize) -> bool {
    let counted = disk.calls().len() == calls && disk.unsynced_writes() == unsynced;
    counted && disk.faults() == faults && disk.missed() == 0
}

/// Whether so many are counted, `None` for want of memory.
fn are_counted(alloc: Global, counting: &Counting) -> Option<bool> {
    let (failing, steps, calls, faults, unsynced) = counting;
    let disk = disk_after(alloc, failing, steps)?;
    Some(has_counts(disk, *calls, *faults, *unsynced))
}

#[test]
fn memory_counts_calls_and_faults(rt: HostRuntime) {
    for (place, counting) in COUNTINGS.iter().enumerate() {
        assert!(rt;
            are_counted(rt.alloc(), counting) == Some(true),
            "row {place}"
        );
    }
}

fn four_zeros(alloc: Global) -> Result<MemDisk, AllocError>
    ensures { IfOk result (λ d. length (medium_of d).now ≡ 4) }
{
    MemDisk::new(alloc, &[0; 4], &[])
}

/// A disk that may be handed to another thread.
fn sent<D: Disk + Send>(disk: D) -> D
    ensures { result ≡ disk }
{
    disk
}

/// Writes two pieces to a disk of at least four bytes, and makes both durable.
fn write_two<D: Disk>(disk: &mut D) -> Result<(), Failed>
    requires { 4 ≤ D.length_of disk.old }
{
    write_at(disk, 0, &[1])?;
    write_at(disk, 2, &[3, 4])?;
    sync_all(disk)
}

/// Whether three calls are done behind a fuse, how many faults it counts, and how many calls came through. `None` for want of memory.
fn three_calls(alloc: Global, fuse: Option<u64>) -> Option<(bool, u64, usize)> {
    let mut disk = sent(FuseDisk::unset(four_zeros(alloc).ok()?));
    disk.set_fuse(fuse);
    let done = write_two(&mut disk).is_ok();
    Some(told(disk, done))
}

fn told(disk: FuseDisk<MemDisk>, done: bool) -> (bool, u64, usize) {
    (done, disk.faults(), disk.inner().calls().len())
}

#[test]
fn a_fuse_stops_at_each_call(rt: HostRuntime) {
    for (fuse, want) in [
        (Some(0), (false, 1, 0)),
        (Some(1), (false, 1, 1)),
        (Some(2), (false, 1, 2)),
        (Some(3), (true, 0, 3)),
        (None, (true, 0, 3)),
    ] {
        assert!(rt;
            three_calls(rt.alloc(), fuse) == Some(want),
            "a fuse of {fuse:?}"
        );
    }
}

/// Whether two pieces are written to a disk of six bytes, and three bytes read of it.
fn is_used(disk: &mut SureDisk, read: &mut [u8; 3]) -> bool {
    disk.len() == 6
        && write_at(disk, 1, &[1, 2]).is_ok()
        && write_at(disk, 4, &[9]).is_ok()
        && sync_all(disk).is_ok()
        && read_at(disk, 2, read).is_ok()
}

#[test]
fn a_sure_disk_gives_what_was_written(rt: HostRuntime) -> Result<(), Fail> {
    let mut disk = sent(SureDisk::new([7; 6].to_vec(rt.alloc())?));
    let mut read = [0; 3];
    let used = is_used(&mut disk, &mut read);
    let bytes = disk.into_bytes();
    assert!(rt; used && read == [2, 7, 9]);
    assert!(rt; bytes.as_slice() == [7, 1, 2, 7, 9, 7].as_slice());
    Ok(())
}
