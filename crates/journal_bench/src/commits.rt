//! Batches that are committed to a journal, one after the other.
ghost use Rattle.std.specs.Prelude.{◌+◌, ◌≤◌};

use disk_model::{Disk, OpenRefusal};
use meta_journal::{JournalRefusal, MetaJournal, scan};
use std::alloc::Global;
use thiserror::Error;

/// As many bytes as a write of one block to a file changes: its new size, and one mapping.
const RECORD: [u8; 35] = [7; 35];

/// Why not all batches were committed.
#[derive(Clone, Copy, Debug, PartialEq, Eq, Error)]
pub(crate) enum Cause {
    #[error("usage: journal_bench FILE N")]
    Words,
    #[error("no such file")]
    NoFile,
    #[error("no journal has {len} bytes")]
    Length { len: u64 },
    #[error("not read: {0}")]
    NotRead(OpenRefusal),
    #[error("a bad batch at {gate}")]
    Bad { gate: u64 },
    #[error("not committed: {0}")]
    NotCommitted(JournalRefusal),
}

/// Commits so many batches to the journal that fills the disk.
pub(crate) fn commit_all<D: Disk>(alloc: Global, disk: &mut D, batches: u64) -> Result<(), Cause> {
    let len = disk.len();
    if len == 0 || len > u32::MAX as u64 {
        return Err(Cause::Length { len });
    }
    let (mut journal, _batches, bad) = match scan(alloc, disk, 0, len, 0) {
        Ok(read) => read,
        Err(why) => return Err(Cause::NotRead(why)),
    };
    if let Some(gate) = bad {
        return Err(Cause::Bad { gate });
    }
    for number in 0..batches {
        commit_one(&mut journal, disk, number)?;
    }
    Ok(())
}

/// Commits a batch of one record, under that number.
fn commit_one<D: Disk>(journal: &mut MetaJournal, disk: &mut D, number: u64) -> Result<(), Cause>
    requires { journal.old.at + journal.old.len ≤ D.length_of disk.old }
    ensures { journal.new.at + journal.new.len ≤ D.length_of disk.new }
{
    let Ok(()) = journal.append(&RECORD) else {
        return Err(Cause::NotCommitted(JournalRefusal::Full));
    };
    match journal.commit(disk, number) {
        Ok(()) => Ok(()),
        Err(why) => Err(Cause::NotCommitted(why)),
    }
}
