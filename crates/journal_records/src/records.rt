//! What events change of what is kept of a store's files beside their bytes.
ghost use Rattle.std.specs.Prelude.{◌≡◌};
ghost use Rattle.journal_records.specs.Texts.{inode_of};

use hsm_types::{AttrName, Bytes, FileKey, ListOf, Regions, Stub, Word};

/// Where blocks of a file lie, counted from 0 among the data blocks. Contracts see the list of them.
pub type Places = ListOf<u32>;

/// One change. `ino` is the inode of the file that it is about.
#[derive(Drop)]
pub enum Record {
    /// A new file, empty.
    Make {
        key: FileKey,
        name: Word,
    },
    /// The file is gone.
    Drop {
        ino: u64,
    },
    /// The file has so many bytes. Blocks wholly past them go, and so do stub entries of segments wholly past them.
    Size {
        ino: u64,
        size: u64,
    },
    /// The file's blocks from that one on lie at these places.
    Map {
        ino: u64,
        block: u32,
        places: Places,
    },
    /// The file has these regions, and no others.
    Regions {
        ino: u64,
        regions: Regions,
    },
    /// The file's attribute of that name has this value.
    SetAttr {
        ino: u64,
        name: AttrName,
        value: Bytes,
    },
    /// The file has no attribute of that name.
    DropAttr {
        ino: u64,
        name: AttrName,
    },
    /// The segment has this entry, or none. Where it is offline, its blocks go.
    Stub {
        ino: u64,
        segment: u32,
        stub: Option<Stub>,
    },
}

impl Record {
    /// The inode of the file that it is about.
    pub fn ino(&self) -> u64
        ensures { result ≡ inode_of self.now }
    {
        match self {
            Record::Make { key, .. } => key.ino,
            Record::Drop { ino }
            | Record::Size { ino, .. }
            | Record::Map { ino, .. }
            | Record::Regions { ino, .. }
            | Record::SetAttr { ino, .. }
            | Record::DropAttr { ino, .. }
            | Record::Stub { ino, .. } => *ino,
        }
    }
}

/// The records of one event, or of one batch, in their order. Contracts see the list of them.
pub type Records = ListOf<Record>;
