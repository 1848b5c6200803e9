//! A snapshot as its bytes say it, before its validity is judged.
ghost use Rattle.std.specs.Prelude.{◌≡◌};
ghost use Rattle.snapshot_text.specs.Reading.{unread_as};
ghost use Rattle.snapshot_text.specs.declared.snapshot.ReadRefusal.TheVariants.{Memory};

use hsm_types::{AttrName, Bytes, FileKey, Regions, Stub, Word};
use journal_records::Unread;
use std::alloc::AllocError;

/// The one format that there is.
pub(crate) const FORMAT: u32 = 1;

/// A block of a file, counted from 0 in the file, and the disk's block that has it, counted from 0 among the data blocks.
#[derive(Clone, Copy, PartialEq, Eq)]
pub struct Mapping {
    pub block: u32,
    pub place: u32,
}

/// A file as a snapshot spells it.
#[derive(Drop)]
pub struct RawFile {
    pub key: FileKey,
    pub size: u64,
    pub name: Word,
    pub regions: Regions,
    pub attributes: Vec<(AttrName, Bytes)>,
    pub extents: Vec<Mapping>,
    pub stubs: Vec<(u32, Stub)>,
}

/// A snapshot as it is spelled. It need not be valid.
#[derive(Drop)]
pub struct RawSnapshot {
    pub number: u64,
    pub next: u64,
    pub files: Vec<RawFile>,
}

/// Why a snapshot couldn't be read.
#[derive(Clone, Copy, PartialEq, Eq)]
pub enum ReadRefusal {
    /// The bytes are no snapshot.
    Corrupt,
    Memory,
}

impl From<AllocError> for ReadRefusal {
    ghost from_gives = { λ _ e. e ≡ Memory };

    fn from(_e: AllocError) -> ReadRefusal {
        ReadRefusal::Memory
    }
}

impl From<Unread> for ReadRefusal {
    ghost from_gives = { λ why e. e ≡ unread_as why };

    fn from(why: Unread) -> ReadRefusal {
        match why {
            Unread::Bad => ReadRefusal::Corrupt,
            Unread::Memory => ReadRefusal::Memory,
        }
    }
}
