//! Segments that a pass has left as they are.

use hsm_types::{DmReply, Handle};

/// A segment that was skipped, and the answer for which it was.
#[derive(Drop)]
pub struct Skip {
    pub handle: Handle,
    pub segment: u32,
    pub why: DmReply,
}
