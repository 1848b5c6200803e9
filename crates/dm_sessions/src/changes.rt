//! Changes of one live session in the table.
ghost use Rattle.std.specs.Prelude.{◌≡◌, ◌<◌, ◌≤◌, [], ◌∷◌, true, is_some, IfSome, OnOk, OnErr, length, count_by, filter, map, not};
ghost use Rattle.std.specs.List.{All};
ghost use Rattle.std.specs.Map.{lookup};
ghost use Rattle.hsm_types.specs.Messages.{IsMessage, has_token, takes};
ghost use Rattle.hsm_types.specs.Sessions.{same_sid, change_live, queued, hands_out, loses, put_message};
ghost use Rattle.hsm_types.specs.Sessions.{without_token, message_in, queue_or_none, outstanding_or_none, places_in};
ghost use Rattle.hsm_types.specs.declared.keys.Token.{Token};
ghost use Rattle.dm_sessions.specs.Tables.{IsEvent, IsQueued, users_of};

use crate::live_session::LiveSession;
use hsm_types::{Kinds, Message, Sid, Token};
use indexmap::IndexMap;
use std::alloc::AllocError;
use std::collections::VecDeque;

/// A message more in the queue of the session.
pub(crate) fn push(
    live: &mut IndexMap<Sid, LiveSession>,
    sid: Sid,
    message: Message,
) -> Result<(), AllocError>
    requires message { IsQueued message }
    requires lives { is_some (lookup (same_sid sid) live.old.entries) ≡ true }
    ensures after { OnOk result (live.new.entries ≡ change_live sid (queued (message ∷ [])) live.old.entries) }
    ensures err { OnErr result (live.new.entries ≡ live.old.entries) }
{
    live.get_mut(&sid).unwrap().push(message)
}

/// A message more that is outstanding to the session, under a token that no other has.
pub(crate) fn put(
    live: &mut IndexMap<Sid, LiveSession>,
    sid: Sid,
    message: Message,
) -> Result<(), AllocError>
    requires message { IsMessage message }
    requires token { 0 < message.token.0 }
    requires lives { is_some (lookup (same_sid sid) live.old.entries) ≡ true }
    requires absent { count_by (has_token message.token) (outstanding_or_none (lookup (same_sid sid) live.old.entries)) ≡ 0 }
    ensures after { OnOk result (live.new.entries ≡ change_live sid (λ s. record s { outstanding = put_message s.outstanding message }) live.old.entries) }
    ensures err { OnErr result (live.new.entries ≡ live.old.entries) }
{
    live.get_mut(&sid).unwrap().put(message)
}

/// The messages of accesses of these kinds join the queue of the session.
pub(crate) fn join(
    live: &mut IndexMap<Sid, LiveSession>,
    sid: Sid,
    messages: &mut VecDeque<Message>,
    kinds: Kinds,
) -> Result<(), AllocError>
    requires events { All IsEvent messages.old.items }
    requires lives { is_some (lookup (same_sid sid) live.old.entries) ≡ true }
    ensures after { OnOk result (live.new.entries ≡ change_live sid (queued (filter (λ m. takes kinds m.kind) messages.old.items)) live.old.entries) }
    ensures left { OnOk result (messages.new.items ≡ filter (λ m. not (takes kinds m.kind)) messages.old.items) }
    ensures err { OnErr result (live.new.entries ≡ live.old.entries) }
    ensures unmoved { OnErr result (messages.new.items ≡ messages.old.items) }
{
    live.get_mut(&sid).unwrap().join(messages, kinds)
}

/// Gives the session these kinds.
pub(crate) fn set_kinds(live: &mut IndexMap<Sid, LiveSession>, sid: Sid, kinds: Kinds)
    requires { is_some (lookup (same_sid sid) live.old.entries) ≡ true }
    ensures { live.new.entries ≡ change_live sid (λ s. record s { kinds = kinds }) live.old.entries }
{
    live.get_mut(&sid).unwrap().set_kinds(kinds);
}

/// Takes these kinds from all sessions.
pub(crate) fn lose_kinds(live: &mut IndexMap<Sid, LiveSession>, kinds: Kinds)
    ensures { live.new.entries ≡ map (λ s. (s.0, loses kinds s.1)) live.old.entries }
{
    for i in 0..live.len() {
        if let Some(session) = live.get_index_mut(i) {
            session.set_kinds(session.kinds().without(kinds));
        }
    }
}

/// Delivers the first `count` messages of the session's queue.
pub(crate) fn deliver(
    live: &mut IndexMap<Sid, LiveSession>,
    sid: Sid,
    count: usize,
) -> Result<(), AllocError>
    requires lives { is_some (lookup (same_sid sid) live.old.entries) ≡ true }
    requires within { count ≤ length (queue_or_none (lookup (same_sid sid) live.old.entries)) }
    requires once { IfSome (lookup (same_sid sid) live.old.entries) (λ s. (u : Token) → 0 < u.0 → places_in u s ≤ 1) }
    ensures after { OnOk result (live.new.entries ≡ change_live sid (hands_out count) live.old.entries) }
    ensures users { OnOk result (IfSome (lookup (same_sid sid) live.old.entries) (λ s. users_of (hands_out count s) ≡ users_of s)) }
    ensures err { OnErr result (live.new.entries ≡ live.old.entries) }
{
    live.get_mut(&sid).unwrap().deliver(count)
}

/// Takes the message of a token out of those that are outstanding to the session.
pub(crate) fn take_out(
    live: &mut IndexMap<Sid, LiveSession>,
    sid: Sid,
    token: Token,
) -> Option<Message>
    requires { is_some (lookup (same_sid sid) live.old.entries) ≡ true }
    ensures found { result ≡ message_in token (outstanding_or_none (lookup (same_sid sid) live.old.entries)) }
    ensures apart { count_by (has_token token) (outstanding_or_none (lookup (same_sid sid) live.old.entries)) ≤ 1 }
    ensures after { live.new.entries ≡ change_live sid (λ s. record s { outstanding = without_token token s.outstanding }) live.old.entries }
{
    live.get_mut(&sid).unwrap().take_out(token)
}
