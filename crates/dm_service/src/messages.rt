//! Calls on messages and their tokens.
ghost use Rattle.std.specs.Prelude.{◌≡◌, ◌≢◌, ◌≤◌, [], ◌∷◌, length, true, None, IfOk, OnOk, OnErr};
ghost use Rattle.hsm_types.specs.Refusals.{first_refusal};
ghost use Rattle.hsm_types.specs.Messages.{packed, handed_out};
ghost use Rattle.hsm_types.specs.Sessions.{lives, dead_session, queue_of, tokens_of, none_fits, delivered_within};
ghost use Rattle.hsm_types.specs.declared.keys.Sid.{Sid};
ghost use Rattle.hsm_types.specs.declared.dm.DmCall.TheVariants.{GetEvents, GetAllTokens, FindEventMsg, SendMsg};
ghost use Rattle.event_msgs.specs.Buffers.{IsPacked};
ghost use Rattle.dm_service.specs.Handing.{HandsOut};
ghost use Rattle.dm_service.specs.Services.{own_refusal, AreBoth, IsTold, JudgesOrLacks};

use crate::replies::{done, refused, twice};
use dm_sessions::Sessions;
use event_msgs::{PackRefusal, pack, pack_one};
use hsm_types::{Bytes, DmRefusal, DmReply, Packed, Sid, Token};
use std::alloc::{AllocError, Global};

/// Hands out what fits of the session's messages, with the reply twice.
pub(crate) fn hand_out(
    sessions: &mut Sessions,
    alloc: Global,
    sid: Sid,
    max: u32,
    room: u32,
) -> Result<(DmReply, DmReply), AllocError>
    requires { lives sid sessions.old ≡ true }
    ensures told { IsTold sessions.old sid (GetEvents max room) (own_refusal sessions.old sid (GetEvents max room)) result sessions.new }
    ensures packed { IfOk result (λ r. HandsOut sessions.old sid (GetEvents max room) r.0) }
{
    let packed = match pack_queue(sessions, alloc, sid, max, room) {
        Ok(packed) => packed,
        Err(why) => return lacking_or_refused(why),
    };
    let count = packed.tokens.as_slice().len();
    let replies = both_packed(packed)?;
    match sessions.deliver(sid, count) {
        Ok(()) => Ok(replies),
        // The session lives.
        Err(_) => Err(AllocError),
    }
}

/// Hands out what fits of the session's messages.
pub(crate) fn deliver(
    sessions: &mut Sessions,
    alloc: Global,
    sid: Sid,
    max: u32,
    room: u32,
) -> Result<Packed, DmRefusal>
    ensures judged { JudgesOrLacks result (first_refusal (dead_session sid sessions.old ∷ none_fits room (queue_of sid sessions.old) ∷ [])) }
    ensures bytes { IfOk result (λ p. p.bytes ≡ packed (handed_out max room (queue_of sid sessions.old))) }
    ensures tokens { IfOk result (λ p. p.tokens ≡ tokens_of (handed_out max room (queue_of sid sessions.old))) }
    ensures after { OnOk result (sessions.new ≡ delivered_within sid max room sessions.old) }
    ensures err { OnErr result (sessions.new ≡ sessions.old) }
{
    let packed = pack_queue(sessions, alloc, sid, max, room)?;
    sessions.deliver(sid, packed.tokens.as_slice().len())?;
    Ok(packed)
}

/// What fits of the session's messages.
#[tactic(auto, using(crate::proofs::HandedOut::handed_within))]
fn pack_queue(
    sessions: &Sessions,
    alloc: Global,
    sid: Sid,
    max: u32,
    room: u32,
) -> Result<Packed, DmRefusal>
    ensures judged { JudgesOrLacks result (first_refusal (dead_session sid sessions.now ∷ none_fits room (queue_of sid sessions.now) ∷ [])) }
    ensures bytes { IfOk result (λ p. p.bytes ≡ packed (handed_out max room (queue_of sid sessions.now))) }
    ensures tokens { IfOk result (λ p. p.tokens ≡ tokens_of (handed_out max room (queue_of sid sessions.now))) }
    ensures within { IfOk result (λ p. length p.tokens ≤ length (queue_of sid sessions.now)) }
    ensures grammar { IfOk result (λ p. IsPacked p.bytes (handed_out max room (queue_of sid sessions.now))) }
{
    let queue = sessions.queue(sid)?;
    match pack(alloc, queue, max, room) {
        Ok(packed) => Ok(packed),
        Err(PackRefusal::TooSmall { need }) => Err(DmRefusal::TooSmall { need }),
        Err(PackRefusal::Memory) => Err(DmRefusal::Memory),
    }
}

fn both_packed(packed: Packed) -> Result<(DmReply, DmReply), AllocError>
    ensures { IfOk result (λ r. AreBoth (DmReply.Packed packed.bytes packed.tokens) r) }
{
    twice(DmReply::Packed {
        bytes: packed.bytes,
        tokens: packed.tokens,
    })
}

/// The tokens that are outstanding to the session.
pub(crate) fn tokens(
    sessions: &Sessions,
    alloc: Global,
    sid: Sid,
) -> Result<(DmReply, DmReply), AllocError>
    requires { lives sid sessions.now ≡ true }
    ensures { IsTold sessions.now sid GetAllTokens None result sessions.now }
{
    match sessions.tokens(alloc, sid) {
        Ok(tokens) => twice(DmReply::Tokens(tokens)),
        // The session lives.
        Err(_) => Err(AllocError),
    }
}

/// The message of an outstanding token.
pub(crate) fn find(
    sessions: &Sessions,
    alloc: Global,
    token: Token,
    room: u32,
) -> Result<(DmReply, DmReply), AllocError>
    ensures told { (sid : Sid) → IsTold sessions.now sid (FindEventMsg token room) (own_refusal sessions.now sid (FindEventMsg token room)) result sessions.now }
    ensures packed { (sid : Sid) → IfOk result (λ r. HandsOut sessions.now sid (FindEventMsg token room) r.0) }
{
    let Some(message) = sessions.find(token) else {
        return Ok(refused(DmRefusal::Again));
    };
    match pack_one(alloc, message, room) {
        Ok(packed) => both_packed(packed),
        Err(PackRefusal::TooSmall { need }) => Ok(refused(DmRefusal::TooSmall { need })),
        Err(PackRefusal::Memory) => Err(AllocError),
    }
}

/// Sends a message to a session.
pub(crate) fn send(
    sessions: &mut Sessions,
    sid: Sid,
    target: Sid,
    body: &Bytes,
) -> Result<(DmReply, DmReply), AllocError>
    requires { lives sid sessions.old ≡ true }
    ensures { IsTold sessions.old sid (SendMsg target body.now) (own_refusal sessions.old sid (SendMsg target body.now)) result sessions.new }
{
    if let Err(why) = sessions.judge_sending(sid, target, body) {
        return Ok(refused(why));
    }
    match sessions.send(sid, target, body.clone()?) {
        Ok(()) => Ok(done()),
        // Nothing else refuses it.
        Err(_) => Err(AllocError),
    }
}

/// Want of memory, or a refusal.
fn lacking_or_refused(why: DmRefusal) -> Result<(DmReply, DmReply), AllocError>
    ensures refused { IfOk result (λ r. AreBoth (DmReply.Refused why) r) }
    ensures other { OnOk result (why ≢ DmRefusal.Memory) }
    ensures memory { OnErr result (why ≡ DmRefusal.Memory) }
{
    match why {
        DmRefusal::Memory => Err(AllocError),
        why => Ok(refused(why)),
    }
}
