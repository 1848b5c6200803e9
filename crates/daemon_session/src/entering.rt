//! How a daemon comes to a session.

use hsm_types::{Sid, Sids, Token, Tokens};

/// What a daemon asks, on its way to a session.
#[derive(Drop)]
pub enum Entering {
    /// Nothing, and it has no session.
    Outside,
    /// Which sessions live.
    Listing,
    /// What the session `target` is known by. Those of `ids` from the place `at` on come next.
    Querying {
        target: Sid,
        ids: Sids,
        at: usize,
    },
    /// For a session, in the place of `old` where that isn't 0.
    Making {
        old: Sid,
    },
    /// For its kinds. Of a session that it assumed it doesn't know the tokens.
    Setting {
        sid: Sid,
        assumed: bool,
    },
    /// Which tokens are outstanding.
    Recollecting {
        sid: Sid,
    },
    /// For the message of `token`. Those of `tokens` from the place `at` on come next.
    Finding {
        sid: Sid,
        token: Token,
        tokens: Tokens,
        at: usize,
    },
    /// Nothing more: it has the session, its kinds, and all its messages.
    Seated {
        sid: Sid,
    },
}
