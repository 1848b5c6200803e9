//! Holdings in the order of tokens.

use hsm_types::{FileKey, Token};

/// A file that a token holds. They stand in the order of tokens, so that those of one token stand together.
#[derive(Clone, Copy, PartialEq, Eq, PartialOrd, Ord)]
pub struct Held {
    pub token: Token,
    pub key: FileKey,
}
