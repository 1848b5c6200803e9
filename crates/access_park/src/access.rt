//! An access that is pending.

use hsm_types::{Call, FileKey, Response, Token};

/// An access that waits, or is judged anew.
#[derive(Drop)]
pub struct Access {
    /// Of the file that it is to.
    pub key: FileKey,
    pub call: Call,
    /// Regions hold it up no more.
    pub cleared: bool,
    /// Want of space holds it up no more.
    pub spaced: bool,
    /// Of the event whose response it waits for. One that a right holds up has none.
    pub token: Option<Token>,
    /// The response to that event.
    pub answer: Option<Response>,
}
