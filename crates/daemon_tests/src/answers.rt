//! What daemons may hear, whatever they asked.

use hsm_types::{Bytes, Digest, DmRefusal, DmReply, Fingerprint, Right, Sid, Token, Tokens};
use std::alloc::Global;

const PRINT: Fingerprint = Fingerprint {
    len: 1,
    digest: Digest([0; 32]),
};

/// Each refusal.
pub(crate) static REFUSALS: [DmRefusal; 24] = [
    DmRefusal::NoSession,
    DmRefusal::NoToken,
    DmRefusal::NotYours { owner: Sid(8) },
    DmRefusal::NoObject,
    DmRefusal::NeedRight { have: Right::Null },
    DmRefusal::Busy { token: Token(9) },
    DmRefusal::EventsLeft { count: 1 },
    DmRefusal::Again,
    DmRefusal::TooSmall { need: 64 },
    DmRefusal::BadRegion { index: 0 },
    DmRefusal::NoAttr,
    DmRefusal::Reserved,
    DmRefusal::AttrTooBig { len: 1 },
    DmRefusal::Offline { segment: 0 },
    DmRefusal::NotSealed { segment: 0 },
    DmRefusal::NotOffline { segment: 0 },
    DmRefusal::Changed {
        want: PRINT,
        got: PRINT,
    },
    DmRefusal::Uncovered { segment: 0 },
    DmRefusal::BadRange,
    DmRefusal::BadResponse,
    DmRefusal::NoSpace { need: 1, free: 0 },
    DmRefusal::TooMany { count: 64 },
    DmRefusal::Disk,
    DmRefusal::Memory,
];

/// A buffer of messages. `None` for want of memory.
pub(crate) fn packed(alloc: Global, bytes: &[u8]) -> Option<DmReply> {
    Some(DmReply::Packed {
        bytes: Bytes::from(bytes.to_vec(alloc).ok()?),
        tokens: Tokens::from(Vec::new(alloc)),
    })
}
