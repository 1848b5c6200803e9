//! What is read of a message.

use hsm_types::{Kind, Token};

/// A message in a buffer. Its bytes stay there.
#[derive(Clone, Copy)]
pub struct View<'a> {
    pub kind: Kind,
    /// 0 where no response is wanted.
    pub token: Token,
    /// Empty in a session's own message.
    pub handle: &'a [u8],
    /// 0 in a session's own message, as the length.
    pub offset: u64,
    pub length: u64,
    /// What a session's own message says. Empty in any other.
    pub body: &'a [u8],
}
