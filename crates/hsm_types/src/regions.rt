//! Managed regions, and what touches them.

/// The flag of a region whose reads are managed.
pub const REGION_READ: u8 = 1;

/// The flag of a region whose writes are managed.
pub const REGION_WRITE: u8 = 2;

/// The flag of a region whose truncates are managed.
pub const REGION_TRUNCATE: u8 = 4;

/// A part of a file whose accesses sessions hear of. Offset and size are in bytes.
#[derive(Clone, Copy, PartialEq, Eq)]
pub struct Region {
    pub offset: u64,

    /// 0 for a region without end.
    pub size: u64,

    /// The sum of the flags of those accesses.
    pub flags: u8,
}

/// Bytes of a file, from an offset on.
#[derive(Clone, Copy, PartialEq, Eq)]
pub struct Range {
    pub offset: u64,
    pub len: u64,
}
