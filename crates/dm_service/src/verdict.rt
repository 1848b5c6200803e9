//! What is said of an access.

use hsm_types::{Kind, Response, Token};

/// What becomes of an access that is judged.
#[derive(Clone, Copy, PartialEq, Eq)]
pub enum Verdict {
    /// It ends by this response to its event, which is an abort.
    Answered(Response),
    /// It ends, since its file is gone.
    Missing,
    /// It waits without a token, since the right of that one excludes it.
    Block(Token),
    /// An event of that kind is posted, and it waits for the response.
    Post(Kind),
    /// It ends, since it needs more blocks than are free.
    NoSpace { need: u64, free: u64 },
    /// It is done.
    Complete,
}
