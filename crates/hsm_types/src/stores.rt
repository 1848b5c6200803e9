//! What a store was formatted with.

/// What a format lets a file have.
#[derive(Clone, Copy, PartialEq, Eq)]
pub struct Limits {
    /// The bytes of the longest file.
    pub bytes: u64,

    /// The most regions of a file.
    pub regions: u32,
}

/// How much a store can hold.
#[derive(Clone, Copy, PartialEq, Eq)]
pub struct Geometry {
    /// How many files, and so the greatest inode.
    pub files: u32,

    /// How many blocks all bodies together may have mapped.
    pub blocks: u32,

    /// How many bytes the attributes of all files together may count.
    pub attributes: u32,

    /// How many stub entries all files together may have.
    pub stubs: u32,

    /// What one file may have.
    pub limits: Limits,
}

/// What formatting fixes of a store for all its life.
#[derive(Clone, Copy, PartialEq, Eq)]
pub struct Superblock {
    pub geometry: Geometry,

    /// The file system id, by which handles of this store are told from those of others.
    pub fsid: u64,
}
