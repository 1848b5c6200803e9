//! The batches of a journal, as values.
ghost use Rattle.std.specs.Prelude.{◌≡◌, IfOk};

use std::alloc::{AllocError, Global};
use std::marker::Model;

/// The bytes of the records of a batch, one behind the other. Contracts see them as a list.
#[derive(Drop)]
pub struct RecordBytes {
    bytes: Vec<u8>,
}

impl Model for RecordBytes {
    ghost use Rattle.std.specs.Prelude.{ℕ, List};

    ghost Value = { List ℕ };

    ghost view = { λ r. r.bytes.items };
}

impl RecordBytes {
    pub(crate) fn copy(alloc: Global, bytes: &[u8]) -> Result<RecordBytes, AllocError>
        ensures { IfOk result (λ r. r ≡ bytes.now) }
    {
        Ok(RecordBytes {
            bytes: bytes.to_vec(alloc)?,
        })
    }

    pub fn as_slice(&self) -> &[u8]
        ensures { result.now ≡ self.now }
    {
        &self.bytes
    }
}

/// What one commit wrote: where its gate is, in bytes from the disk's start, its number, how many records, and their bytes.
#[derive(Drop)]
pub struct Batch {
    pub place: u64,
    pub number: u64,
    pub count: u32,
    pub records: RecordBytes,
}

/// The batches of a journal, the oldest first. Contracts see them as a list.
#[derive(Drop)]
pub struct Batches {
    list: Vec<Batch>,
}

impl Model for Batches {
    ghost use Rattle.std.specs.Prelude.{List};
    ghost use Rattle.meta_journal.specs.declared.lists.Batch.{Batch};

    ghost Value = { List Batch };

    ghost view = { λ b. b.list.items };
}

impl Batches {
    pub(crate) fn new(list: Vec<Batch>) -> Batches
        ensures { result ≡ list.items }
    {
        Batches { list }
    }

    pub fn as_slice(&self) -> &[Batch]
        ensures { result.now ≡ self.now }
    {
        &self.list
    }
}
