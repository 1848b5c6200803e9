//! Which events of daemons are quiet.
ghost use Rattle.std.specs.Prelude.{◌≡◌};
ghost use Rattle.std.specs.List.{list_all};
ghost use Rattle.marked_history.specs.Quiet.{is_question, is_refusal, is_quiet};

use hsm_types::{DmCall, DmReply};
use plain_model::{Action, Answer, Entry};

/// Whether all these events are quiet.
pub(crate) fn all_quiet(entries: &[Entry]) -> bool
    ensures { result ≡ list_all is_quiet entries.now }
{
    entries.iter().all(|entry| is_quiet(entry))
}

/// Whether the event is a session's that was refused, or that only asks.
pub(crate) fn is_quiet(entry: &Entry) -> bool
    ensures { result ≡ is_quiet entry.now }
{
    match (&entry.action, &entry.answer) {
        (Action::Dm(call), Answer::Dm(reply)) => is_refusal(reply) || is_question(call),
        _ => false,
    }
}

fn is_refusal(reply: &DmReply) -> bool
    ensures { result ≡ is_refusal reply.now }
{
    matches!(reply, DmReply::Refused(_))
}

fn is_question(call: &DmCall) -> bool
    ensures { result ≡ is_question call.now }
{
    matches!(
        call,
        DmCall::GetAllSessions
            | DmCall::QuerySession { .. }
            | DmCall::GetSpace
            | DmCall::GetTable
            | DmCall::GetAllTokens
            | DmCall::FindEventMsg { .. }
            | DmCall::GetFileAttr { .. }
            | DmCall::GetAllocInfo { .. }
            | DmCall::GetRegion { .. }
            | DmCall::ReadInvis { .. }
    )
}
