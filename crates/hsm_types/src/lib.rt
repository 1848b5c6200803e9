//! The words that callers, sessions and the store exchange: names, bytes, keys, handles, calls and replies.
#![tactic(auto)]

mod attributes;
mod calls;
mod daemons;
mod dm;
mod keys;
mod limits;
mod lists;
mod media;
mod messages;
mod names;
mod regions;
mod stores;
mod stubs;
mod tables;
mod texts;

pub use attributes::AttrName;
pub use calls::{Call, CallRefusal, Reply};
pub use daemons::{Act, Daemon, Heard};
pub use dm::{DmCall, DmRefusal, DmReply, Kind, Kinds, Response, Right, Scope};
pub use keys::{CallerId, FileKey, HANDLE_BYTES, Handle, Holding, Sid, Token};
pub use limits::{
    ACCESS_BYTES, ALL_FLAGS, ATTRIBUTE_COST, BLOCK_BYTES, BUFFER_BYTES, CALLERS, DATA_BYTES,
    FILE_BLOCKS, FILE_BYTES, FILE_REGIONS, FILE_SEGMENTS, FIRST_LIMITS, INFO_BYTES, LARGE_GEOMETRY,
    LAST_ERROR, LAST_GENERATION, LAST_NUMBER, LAST_VOLUME, LIVE_SESSIONS, MOST_TOKENS,
    MOST_VOLUMES, NAME_BYTES, SEGMENT_BLOCKS, SEGMENT_BYTES, SMALL_GEOMETRY, USER_EVENTS,
    VALUE_BYTES, WAITING_MESSAGES, segments_in,
};
pub use lists::{Bytes, FileRows, ListOf, Names, Regions, Segments, Sids, Tokens, Word};
pub use media::{CopyRefusal, Fault, FetchRefusal, MediaCause};
pub use messages::{Message, Packed};
pub use names::can_name;
pub use regions::{REGION_READ, REGION_TRUNCATE, REGION_WRITE, Range, Region};
pub use stores::{Geometry, Limits, Superblock};
pub use stubs::{Changed, Digest, Fingerprint, Place, Segment, Stub, StubEntry, Verified};
pub use tables::{FileRow, Table};
