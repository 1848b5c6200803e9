//! The rules by which an access is judged. The first that applies decides.
ghost use Rattle.std.specs.Prelude.{◌≡◌};
ghost use Rattle.std.specs.Option.{option_map};
ghost use Rattle.hsm_types.specs.Messages.{no_token};
ghost use Rattle.hsm_types.specs.Rights.{conflict};
ghost use Rattle.plain_model.specs.Accesses.{kind_of, need_of};
ghost use Rattle.plain_model.specs.Ledger.{aborted, gone};
ghost use Rattle.plain_model.specs.Verdict.{Ends, Rules, conflicting, touching, needing, lacking, judgement};
ghost use Rattle.dm_service.specs.Tables.{flags_in};
ghost use Rattle.dm_service.specs.Judging.{verdict_of, said};

use crate::service::DmService;
use crate::verdict::Verdict;
use access_park::Access;
use dm_sessions::Sessions;
use hsm_types::{Call, FileKey, Kind, Response, Right, Token};
use plain_model::Facts;

impl DmService {
    /// Judges an access to the file with that key, of which the store knows these facts: when it is issued, and again when it is resumed. It takes no
    /// memory.
    pub fn judge(&self, key: FileKey, access: &Access, facts: &Facts) -> Verdict
        ensures { result ≡ verdict_of (judgement (flags_in access.now) access.now.answer facts.now self.now.rights self.now.sessions key access.now.call) }
    {
        if let Some(verdict) = judge_answer(access) {
            return verdict;
        }
        if let Some(verdict) = judge_file(facts) {
            return verdict;
        }
        if let Some(verdict) = self.judge_rights(key, &access.call) {
            return verdict;
        }
        if let Some(verdict) = judge_regions(access, facts) {
            return verdict;
        }
        if let Some(verdict) = judge_segments(access, facts) {
            return verdict;
        }
        if let Some(verdict) = judge_space(access, facts, &self.sessions) {
            return verdict;
        }
        Verdict::Complete
    }

    /// It waits where a token's right on its file excludes it.
    fn judge_rights(&self, key: FileKey, call: &Call) -> Option<Verdict>
        ensures { result ≡ said (option_map Rules (conflicting self.now.rights key call.now)) }
    {
        self.conflict(key, call).map(Verdict::Block)
    }

    /// The lowest token whose right on the file excludes the call. It costs a look-up, and a walk over the rights on that file.
    pub fn conflict(&self, key: FileKey, call: &Call) -> Option<Token>
        ensures { result ≡ conflict key (need_of call.now) no_token self.now.rights }
    {
        self.rights.conflict(key, need_of(call), Token(0))
    }
}

/// The right that an access needs on its file.
fn need_of(call: &Call) -> Right
    ensures { result ≡ need_of call.now }
{
    match call {
        Call::Read { .. } => Right::Shared,
        Call::Write { .. } | Call::Truncate { .. } | Call::Remove { .. } => Right::Excl,
        Call::Create { .. } | Call::Stat { .. } | Call::Sync => Right::Null,
    }
}

/// An abort ends it, and so does a fault of a medium.
fn judge_answer(access: &Access) -> Option<Verdict>
    ensures { result ≡ said (option_map Ends (aborted access.now.answer)) }
{
    match access.answer {
        Some(Response::Abort(error)) => Some(Verdict::Answered(Response::Abort(error))),
        Some(Response::Media(cause)) => Some(Verdict::Answered(Response::Media(cause))),
        _ => None,
    }
}

/// So does the end of its file.
fn judge_file(facts: &Facts) -> Option<Verdict>
    ensures { result ≡ said (option_map Ends (gone facts.now.live)) }
{
    if facts.live {
        None
    } else {
        Some(Verdict::Missing)
    }
}

/// It asks where it touches a region with its flag, unless an event of it was continued.
fn judge_regions(access: &Access, facts: &Facts) -> Option<Verdict>
    ensures { result ≡ said (option_map Rules (touching (flags_in access.now) facts.now access.now.call)) }
{
    if access.cleared || !facts.touches {
        return None;
    }
    kind_of(&access.call).map(Verdict::Post)
}

/// Once an event of it was continued, it asks again as long as bytes that it needs are away.
fn judge_segments(access: &Access, facts: &Facts) -> Option<Verdict>
    ensures { result ≡ said (option_map Rules (needing (flags_in access.now) facts.now access.now.call)) }
{
    if !access.cleared || !facts.needs {
        return None;
    }
    kind_of(&access.call).map(Verdict::Post)
}

/// Where it is short of space it asks for space once, if a session takes such events, and else it ends.
fn judge_space(access: &Access, facts: &Facts, sessions: &Sessions) -> Option<Verdict>
    ensures { result ≡ said (option_map Rules (lacking (flags_in access.now) facts.now sessions.now)) }
{
    let room = facts.short?;
    if !access.spaced && sessions.taker(Kind::NoSpace).is_some() {
        return Some(Verdict::Post(Kind::NoSpace));
    }
    Some(Verdict::NoSpace {
        need: room.need,
        free: room.free,
    })
}

/// Of which kind the event of the access is.
pub fn kind_of(call: &Call) -> Option<Kind>
    ensures { result ≡ kind_of call.now }
{
    match call {
        Call::Read { .. } => Some(Kind::Read),
        Call::Write { .. } => Some(Kind::Write),
        Call::Truncate { .. } => Some(Kind::Truncate),
        _ => None,
    }
}
