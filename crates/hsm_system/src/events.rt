//! Events that no daemon makes.
use hsm_types::{Call, CallerId, DmCall, Sid};

/// An event of a line, or of a caller who goes on.
#[derive(Drop)]
pub enum Event {
    /// The caller issues the call.
    Issue(CallerId, Call),
    /// The caller asks for the answer to its access that waits.
    Resume(CallerId),
    /// The session makes the call.
    Dm(Sid, DmCall),
    /// All that is held is made durable.
    Commit,
}
