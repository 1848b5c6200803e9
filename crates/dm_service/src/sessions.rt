//! Calls on sessions and what they take.
ghost use Rattle.std.specs.Prelude.{◌≡◌, true, None};
ghost use Rattle.hsm_types.specs.Sessions.{lives};
ghost use Rattle.hsm_types.specs.declared.keys.Sid.{Sid};
ghost use Rattle.hsm_types.specs.declared.dm.DmCall.TheVariants.{CreateSession, DestroySession, GetAllSessions, QuerySession, SetDisp, GetDisp};
ghost use Rattle.dm_service.specs.Services.{own_refusal, IsTold};

use crate::replies::{done, ended, refused, twice};
use dm_sessions::Sessions;
use hsm_types::{DmRefusal, DmReply, Kinds, Sid, Word};
use std::alloc::{AllocError, Global};

/// Makes a session.
pub(crate) fn create(
    sessions: &mut Sessions,
    old: Sid,
    info: &Word,
) -> Result<(DmReply, DmReply), AllocError>
    ensures { (sid : Sid) → IsTold sessions.old sid (CreateSession old info.now) (own_refusal sessions.old sid (CreateSession old info.now)) result sessions.new }
{
    if let Err(why) = sessions.judge_creation(old, info) {
        return Ok(refused(why));
    }
    match sessions.create(old, info.clone()?) {
        Ok(sid) => Ok((DmReply::Session(sid), DmReply::Session(sid))),
        // Nothing else refuses it.
        Err(_) => Err(AllocError),
    }
}

/// Ends the session. It takes no memory.
pub(crate) fn destroy(sessions: &mut Sessions, sid: Sid) -> Result<(DmReply, DmReply), AllocError>
    requires { lives sid sessions.old ≡ true }
    ensures { IsTold sessions.old sid DestroySession (own_refusal sessions.old sid DestroySession) result sessions.new }
{
    Ok(ended(sessions.destroy(sid)))
}

/// The live sessions.
pub(crate) fn list(sessions: &Sessions, alloc: Global) -> Result<(DmReply, DmReply), AllocError>
    ensures { (sid : Sid) → IsTold sessions.now sid GetAllSessions None result sessions.now }
{
    twice(DmReply::Sids(sessions.list(alloc)?))
}

/// The information of a live session.
pub(crate) fn query(sessions: &Sessions, target: Sid) -> Result<(DmReply, DmReply), AllocError>
    ensures { (sid : Sid) → IsTold sessions.now sid (QuerySession target) (own_refusal sessions.now sid (QuerySession target)) result sessions.now }
{
    match sessions.info(target) {
        Some(info) => twice(DmReply::Info(info.clone()?)),
        None => Ok(refused(DmRefusal::NoSession)),
    }
}

/// Takes these kinds of events.
pub(crate) fn set_kinds(
    sessions: &mut Sessions,
    sid: Sid,
    kinds: Kinds,
) -> Result<(DmReply, DmReply), AllocError>
    requires { lives sid sessions.old ≡ true }
    ensures { IsTold sessions.old sid (SetDisp kinds) None result sessions.new }
{
    match sessions.set_kinds(sid, kinds) {
        Ok(()) => Ok(done()),
        // The session lives.
        Err(_) => Err(AllocError),
    }
}

/// The kinds that the session takes. It takes no memory.
pub(crate) fn kinds(sessions: &Sessions, sid: Sid) -> Result<(DmReply, DmReply), AllocError>
    requires { lives sid sessions.now ≡ true }
    ensures { IsTold sessions.now sid GetDisp None result sessions.now }
{
    let kinds = sessions.kinds(sid).unwrap();
    Ok((DmReply::Kinds(kinds), DmReply::Kinds(kinds)))
}
