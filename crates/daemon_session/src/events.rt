//! The events that a daemon was told of.

use hsm_types::{Handle, Kind, Token};

/// An event of a file, as its message tells it.
#[derive(Clone, Copy, PartialEq, Eq)]
pub struct Event {
    pub token: Token,
    pub kind: Kind,
    pub handle: Handle,
    /// Where the access begins. Of a truncate the new size, and of an access that is short of space how many blocks it needs.
    pub offset: u64,
    /// The bytes of the access. Of a truncate 0, and of an access that is short of space how many blocks are free.
    pub length: u64,
}

/// An event that a daemon keeps until it is answered.
#[derive(Clone, Copy, PartialEq, Eq)]
pub struct Kept {
    pub event: Event,
    /// Of recall whether it is put off to the next round, and of migration whether its message was there before the pass began.
    pub marked: bool,
}
