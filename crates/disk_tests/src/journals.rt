//! Journals: their bytes, what a scan tells of bytes that nobody wrote, and what a crash leaves of a commit.
ghost use Rattle.std.specs.Prelude.{◌≡◌, ◌+◌, ◌≤◌, List, ℕ, length, OnOk};
ghost use Rattle.disk_model.specs.Moments.{MayBe};
ghost use Rattle.meta_journal.specs.Texts.{IsClosed};

use disk_model::{Disk, Failed, MemDisk, OpenRefusal, SureDisk, sync_all, write_at};
use meta_journal::{Batch, Full, JournalRefusal, MetaJournal, scan};
use std::alloc::Global;

/// Where the journal of these tests lies on a disk of 96 bytes.
const AT: u64 = 16;

const LEN: u64 = 80;

const EMPTY: [u8; 96] = [0; 96];

/// A journal's bytes, and how many batches a scan gives that asks for numbers from 7 on, with the gate of the bad one behind them.
type Row = (&'static [u8], usize, Option<u64>);

static ROWS: [Row; 13] = [
    (&[0], 0, None),
    (&[2], 0, None),
    (&[1], 0, Some(0)),
    (
        &[1, 0, 0, 0, 0, 0, 0, 0, 0, 0, 0, 0, 7, 0, 0, 0, 0, 0],
        1,
        None,
    ),
    (
        &[1, 0, 0, 0, 0, 0, 0, 0, 0, 0, 0, 0, 7, 0, 0, 0, 0, 255],
        1,
        None,
    ),
    (
        &[0, 0, 0, 0, 0, 0, 0, 0, 0, 0, 0, 0, 7, 0, 0, 0, 0, 0],
        0,
        None,
    ),
    (
        &[1, 0, 0, 0, 0, 0, 0, 0, 0, 0, 0, 0, 7, 0, 0, 0, 0],
        0,
        Some(0),
    ),
    (
        &[1, 0, 0, 0, 0, 0, 0, 0, 0, 0, 0, 0, 6, 0, 0, 0, 0, 0],
        0,
        Some(0),
    ),
    (
        &[1, 0, 0, 0, 0, 64, 0, 0, 0, 0, 0, 0, 0, 0, 0, 0, 0, 0],
        1,
        None,
    ),
    (
        &[1, 0, 0, 0, 0, 64, 0, 0, 0, 0, 0, 0, 1, 0, 0, 0, 0, 0],
        0,
        Some(0),
    ),
    (
        &[1, 0, 0, 0, 1, 0, 0, 0, 0, 0, 0, 0, 7, 0, 0, 0, 1, 9],
        0,
        Some(0),
    ),
    (
        &[1, 0, 0, 0, 1, 0, 0, 0, 0, 0, 0, 0, 7, 0, 0, 0, 1, 9, 0],
        1,
        None,
    ),
    (
        &[
            1, 0, 0, 0, 0, 0, 0, 0, 0, 0, 0, 0, 8, 0, 0, 0, 0, 1, 0, 0, 0, 0, 0, 0, 0, 0, 0, 0, 0,
            7, 0, 0, 0, 0, 0,
        ],
        1,
        Some(17),
    ),
];

/// What a scan of a whole disk tells: how many batches, and the gate of the bad one. `None` for want of memory.
fn told(alloc: Global, image: &[u8]) -> Option<(usize, Option<u64>)> {
    let mut disk = SureDisk::new(image.to_vec(alloc).ok()?);
    let len = disk.len();
    if len == 0 || len > u32::MAX as u64 {
        return None;
    }
    let (_journal, batches, bad) = scan(alloc, &mut disk, 0, len, 7).ok()?;
    Some((batches.as_slice().len(), bad))
}

#[test]
fn are_read_up_to_a_bad_batch(rt: HostRuntime) {
    for (place, row) in ROWS.iter().enumerate() {
        assert!(rt;
            told(rt.alloc(), row.0) == Some((row.1, row.2)),
            "row {place}"
        );
    }
}

/// Whether the batch is the first that is committed here, or the second one.
fn is_one_of_two(batch: &Batch, first: bool) -> bool {
    if first {
        batch.place == 16
            && batch.number == 3
            && batch.count == 2
            && batch.records.as_slice() == b"abc".as_slice()
    } else {
        batch.place == 36
            && batch.number == 5
            && batch.count == 1
            && batch.records.as_slice() == b"defgh".as_slice()
    }
}

fn stage(journal: &mut MetaJournal, bytes: &[u8]) -> Result<(), Full>
    requires some { 1 ≤ length bytes.now }
    ensures at { journal.new.at ≡ journal.old.at }
    ensures len { journal.new.len ≡ journal.old.len }
{
    match journal.append(bytes) {
        Ok(()) => Ok(()),
        Err(why) => Err(why),
    }
}

fn commit<D: Disk>(
    journal: &mut MetaJournal,
    disk: &mut D,
    number: u64,
) -> Result<(), JournalRefusal>
    requires { journal.old.at + journal.old.len ≤ D.length_of disk.old }
    ensures at { journal.new.at ≡ journal.old.at }
    ensures len { journal.new.len ≡ journal.old.len }
    ensures disk_len { D.length_of disk.new ≡ D.length_of disk.old }
{
    match journal.commit(disk, number) {
        Ok(()) => Ok(()),
        Err(why) => Err(why),
    }
}

/// Stages a record, and commits what is staged.
fn add<D: Disk>(
    journal: &mut MetaJournal,
    disk: &mut D,
    bytes: &[u8],
    number: u64,
) -> Result<(), JournalRefusal>
    requires some { 1 ≤ length bytes.now }
    requires there { journal.old.at + journal.old.len ≤ D.length_of disk.old }
    ensures at { journal.new.at ≡ journal.old.at }
    ensures len { journal.new.len ≡ journal.old.len }
    ensures disk_len { D.length_of disk.new ≡ D.length_of disk.old }
{
    let Ok(()) = stage(journal, bytes) else {
        return Err(JournalRefusal::Full);
    };
    commit(journal, disk, number)
}

/// Commits a batch of `ab` and `c`, and then one of `defgh`.
fn add_two<D: Disk>(journal: &mut MetaJournal, disk: &mut D) -> Result<(), JournalRefusal>
    requires { journal.old.at + journal.old.len ≤ D.length_of disk.old }
{
    let Ok(()) = stage(journal, b"ab") else {
        return Err(JournalRefusal::Full);
    };
    add(journal, disk, b"c", 3)?;
    add(journal, disk, b"defgh", 5)
}

fn commit_two(alloc: Global, disk: &mut MemDisk) -> Result<(), JournalRefusal> {
    if disk.len() < AT + LEN {
        return Err(JournalRefusal::Full);
    }
    let Ok((mut journal, _batches, _bad)) = scan(alloc, disk, AT, LEN, 0) else {
        return Err(JournalRefusal::Failed);
    };
    add_two(&mut journal, disk)
}

/// The images that a crash may leave after these commits, of which the call of that number fails.
fn images_after(
    alloc: Global,
    failing: &[u64],
    want: Result<(), JournalRefusal>,
) -> Option<Vec<Vec<u8>>> {
    let mut disk = MemDisk::new(alloc, &EMPTY, failing).ok()?;
    let done = commit_two(alloc, &mut disk);
    if done != want {
        return None;
    }
    disk.crash_images().ok()
}

/// How many batches the image has, each as it was committed, with no bad one behind them.
fn batches_of(alloc: Global, image: &[u8]) -> Option<usize> {
    let mut disk = SureDisk::new(image.to_vec(alloc).ok()?);
    if disk.len() < AT + LEN {
        return None;
    }
    let (_journal, batches, bad) = scan(alloc, &mut disk, AT, LEN, 0).ok()?;
    let batches = batches.as_slice();
    if bad.is_some() || batches.len() > 2 {
        return None;
    }
    for (place, batch) in batches.iter().enumerate() {
        if !is_one_of_two(batch, place == 0) {
            return None;
        }
    }
    Some(batches.len())
}

/// The fewest and the most batches that the images have.
fn range_of(alloc: Global, images: &[Vec<u8>]) -> Option<(usize, usize)> {
    let mut fewest = 2;
    let mut most = 0;
    for image in images {
        let count = batches_of(alloc, image)?;
        fewest = fewest.min(count);
        most = most.max(count);
    }
    Some((fewest, most))
}

fn range_after(
    alloc: Global,
    failing: &[u64],
    want: Result<(), JournalRefusal>,
) -> Option<(usize, usize)> {
    let images = images_after(alloc, failing, want)?;
    range_of(alloc, &images)
}

/// The calls are a read, and then for each batch a write, a sync, a write of its gate, and a sync.
#[test]
fn have_the_batches_from_before_or_one_more(rt: HostRuntime) {
    for (failing, want) in [
        (1, (0, 0)),
        (2, (0, 0)),
        (3, (0, 1)),
        (4, (0, 1)),
        (5, (1, 1)),
        (6, (1, 1)),
        (7, (1, 2)),
        (8, (1, 2)),
    ] {
        assert!(rt;
            range_after(rt.alloc(), &[failing], Err(JournalRefusal::Failed)) == Some(want),
            "call {failing}"
        );
    }
    assert!(rt; range_after(rt.alloc(), &[], Ok(())) == Some((2, 2)));
}

/// The bytes of a journal after one commit.
fn written(alloc: Global) -> Option<Vec<u8>> {
    let images = images_after(alloc, &[5], Err(JournalRefusal::Failed))?;
    images.into_iter().next()
}

#[test]
fn are_written_as_the_format_says(rt: HostRuntime) {
    let image = written(rt.alloc());
    assert!(rt;
        matches!(&image, Some(image) if image.get(16..37) == Some([
        1, 0, 0, 0, 3, 0, 0, 0, 0, 0, 0, 0, 3, 0, 0, 0, 2, 97, 98, 99, 0,
    ].as_slice()))
    );
}

/// Closes the gate at that place, for each image that a crash may leave.
fn close<D: Disk>(disk: &mut D, gate: u64) -> Result<(), Failed>
    requires { gate + 1 ≤ D.length_of disk.old }
    ensures closed { OnOk result ((c : List ℕ) → MayBe D.Disk disk.new c → IsClosed c gate) }
    ensures len { D.length_of disk.new ≡ D.length_of disk.old }
{
    write_at(disk, gate, &[0])?;
    sync_all(disk)?;
    Ok(())
}

/// Begins the journal anew, and commits a batch of nothing.
fn begin_anew<D: Disk>(journal: &mut MetaJournal, disk: &mut D) -> Result<(), JournalRefusal>
    requires some { 1 ≤ journal.old.len }
    requires there { 16 + journal.old.len ≤ D.length_of disk.old }
{
    let Ok(()) = close(disk, AT) else {
        return Err(JournalRefusal::Failed);
    };
    journal.restart(disk, AT);
    journal.commit(disk, 4)
}

/// What is answered to two commits, to one of nothing behind them, and to one where the journal begins anew.
fn commit_four<D: Disk>(journal: &mut MetaJournal, disk: &mut D) -> [Result<(), JournalRefusal>; 4]
    requires some { 1 ≤ journal.old.len }
    requires there { journal.old.at + journal.old.len ≤ D.length_of disk.old }
    requires at { journal.old.at ≡ 16 }
{
    let failed = commit(journal, disk, 3);
    let again = commit(journal, disk, 3);
    let full = commit(journal, disk, 4);
    [failed, again, full, begin_anew(journal, disk)]
}

/// What a journal answers to a record that is a byte too long, to one that just fits, and to commits of that.
type Answers = (
    Result<(), Full>,
    Result<(), Full>,
    [Result<(), JournalRefusal>; 4],
);

fn ask<D: Disk>(journal: &mut MetaJournal, disk: &mut D) -> Answers
    requires some { 1 ≤ journal.old.len }
    requires there { journal.old.at + journal.old.len ≤ D.length_of disk.old }
    requires at { journal.old.at ≡ 16 }
{
    let over = stage(journal, &[7; 63]);
    let just = stage(journal, &[7; 62]);
    (over, just, commit_four(journal, disk))
}

/// The answers of a journal of 80 bytes, in which records of 62 bytes fit and of 63 don't, on a disk whose first write fails, and
/// how often the disk has failed then.
fn asked(alloc: Global) -> Option<(Answers, u64)> {
    let mut disk = MemDisk::new(alloc, &EMPTY, &[1]).ok()?;
    if disk.len() < AT + LEN {
        return None;
    }
    let (mut journal, _batches, _bad) = scan(alloc, &mut disk, AT, LEN, 0).ok()?;
    if !journal.fits(62) || journal.fits(63) {
        return None;
    }
    let answers = ask(&mut journal, &mut disk);
    Some((answers, disk.faults()))
}

#[test]
fn answer_full_and_failed(rt: HostRuntime) {
    let commits = [
        Err(JournalRefusal::Failed),
        Ok(()),
        Err(JournalRefusal::Full),
        Ok(()),
    ];
    assert!(rt; asked(rt.alloc()) == Some(((Err(Full), Ok(()), commits), 1)));
}

/// Why a journal isn't read on a disk whose calls of these numbers fail.
fn refused(alloc: Global, failing: &[u64]) -> Option<OpenRefusal> {
    let mut disk = MemDisk::new(alloc, &EMPTY, failing).ok()?;
    if disk.len() < AT + LEN {
        return None;
    }
    scan(alloc, &mut disk, AT, LEN, 0).err()
}

#[test]
fn are_not_read_where_the_disk_fails(rt: HostRuntime) {
    assert!(rt; refused(rt.alloc(), &[0]) == Some(OpenRefusal::Disk));
    assert!(rt; refused(rt.alloc(), &[1]).is_none());
}
