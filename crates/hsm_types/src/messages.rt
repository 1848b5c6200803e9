//! Messages that tell sessions of events.

use crate::dm::Kind;
use crate::keys::{Handle, Token};
use crate::lists::{Bytes, Tokens};

/// A message. Whether a buffer can hold it is said by `IsMessage`.
#[derive(Drop)]
pub struct Message {
    pub kind: Kind,
    /// Of the event that is to be responded to, 0 where no response is wanted.
    pub token: Token,
    /// Of the file that was accessed. A session's own message has none.
    pub handle: Option<Handle>,
    /// Where the access begins. Of a truncate the new size, and of an access that is short of space how many blocks it needs.
    pub offset: u64,
    /// The bytes of the access. Of a truncate 0, and of an access that is short of space how many blocks are free.
    pub length: u64,
    /// What a session's own message says.
    pub body: Bytes,
}

/// A buffer of messages, as sessions get it.
#[derive(Drop)]
pub struct Packed {
    pub bytes: Bytes,
    /// Those of its messages, in order, 0 for one that wants no response.
    pub tokens: Tokens,
}
