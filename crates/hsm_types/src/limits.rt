//! The limits of files, stores, accesses and sessions.
ghost use Rattle.std.specs.Prelude.{◌≡◌, ◌≤◌};
ghost use Rattle.hsm_types.specs.Segments.{segments_in};

use crate::regions::{REGION_READ, REGION_TRUNCATE, REGION_WRITE};
use crate::stores::{Geometry, Limits};

// The most that the code can count of a file, whatever its format allows (`Limits`).

/// The bytes of a file, at most.
pub const FILE_BYTES: u64 = 16777216;

/// The segments of so many bytes.
pub const FILE_SEGMENTS: u32 = 256;

/// The blocks of so many bytes.
pub const FILE_BLOCKS: u32 = 4096;

/// The regions of a file, at most.
pub const FILE_REGIONS: usize = 4;

/// The flags of a region that manages all accesses. No region has greater ones.
pub const ALL_FLAGS: u8 = REGION_READ + REGION_WRITE + REGION_TRUNCATE;

// Segments and blocks.

/// The bytes of a segment, in which bodies are kept and moved.
pub const SEGMENT_BYTES: u64 = 65536;

/// The blocks of a segment.
pub const SEGMENT_BLOCKS: u32 = 16;

/// The bytes of a block, in which space is counted.
pub const BLOCK_BYTES: u64 = 4096;

// Stores.

/// What the first format lets a file have.
pub const FIRST_LIMITS: Limits = Limits {
    bytes: 16_777_216,
    regions: 4,
};

/// How much a store can hold that the words call `small`.
pub const SMALL_GEOMETRY: Geometry = Geometry {
    files: 64,
    blocks: 1024,
    attributes: 32_768,
    stubs: 1024,
    limits: FIRST_LIMITS,
};

/// And one that they call `large`.
pub const LARGE_GEOMETRY: Geometry = Geometry {
    files: 4096,
    blocks: 65_536,
    attributes: 1_048_576,
    stubs: 65_536,
    limits: FIRST_LIMITS,
};

/// The greatest number under which a store's files are made durable: that of its history's entries.
pub const LAST_NUMBER: u64 = 1 << 62;

/// The greatest generation that a store can have as its next one. Those that were given are less.
pub const LAST_GENERATION: u64 = 1 << 62;

// Names and accesses.

/// The bytes of the longest name.
pub const NAME_BYTES: usize = 64;

/// The bytes of the longest read or write.
pub const ACCESS_BYTES: u64 = 65536;

/// How many callers there may be. They are numbered from 1.
pub const CALLERS: u8 = 64;

// Attributes.

/// The bytes of an attribute's longest value.
pub const VALUE_BYTES: usize = 4096;

/// What an attribute counts beside the bytes of its value.
pub const ATTRIBUTE_COST: u64 = 16;

// Volumes.

/// How many volumes there may be. They are numbered from 0.
pub const MOST_VOLUMES: u32 = 256;

/// The greatest number of a volume.
pub const LAST_VOLUME: u32 = 255;

// Sessions.

/// How many sessions may live.
pub const LIVE_SESSIONS: usize = 64;

/// The bytes of a session's longest information. The shortest has one.
pub const INFO_BYTES: usize = 256;

/// How many tokens may be given, and so the greatest one. They are numbered from 1.
pub const MOST_TOKENS: u64 = 1 << 62;

/// How many user events may be outstanding, to all sessions together.
pub const USER_EVENTS: u64 = 960;

/// The bytes of a message's longest data.
pub const DATA_BYTES: usize = 4096;

/// How many messages without a token may wait for one session.
pub const WAITING_MESSAGES: u64 = 1024;

/// The greatest error by which an access may be aborted. The least is 1.
pub const LAST_ERROR: u32 = 255;

/// The bytes of the buffers in which daemons take events.
pub const BUFFER_BYTES: u32 = 65536;

/// How many segments a file of that size has.
pub fn segments_in(size: u64) -> u32
    requires { size ≤ FILE_BYTES }
    ensures count { result ≡ segments_in size }
    ensures few { result ≤ FILE_SEGMENTS }
{
    size.div_ceil(SEGMENT_BYTES) as u32
}
