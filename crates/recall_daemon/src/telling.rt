//! What an answer tells.
ghost use Rattle.std.specs.Prelude.{◌≡◌, Some, None, Decides, MatchOption};
ghost use Rattle.recall_daemon.specs.Tellings.{TellsNoSession, TellsNoMore, tells_done, size_told, refusal_told, segments_told, messages_told};
ghost use Rattle.recall_daemon.specs.Tellings.{fetched_told, response_to};

use hsm_types::{Bytes, DmRefusal, DmReply, FetchRefusal, Heard, Response, Segments, Verified};

/// The error of an access to bytes that are lost.
const LOST: u32 = 2;

/// Whether the call was done.
pub(crate) fn tells_done(told: &Heard) -> bool
    ensures { result ≡ tells_done told.now }
{
    matches!(told, Heard::Dm(DmReply::Done))
}

/// Whether the call was refused, as the session is gone.
pub(crate) fn tells_no_session(told: &Heard) -> bool
    ensures { Decides result (TellsNoSession told.now) }
{
    matches!(told, Heard::Dm(DmReply::Refused(DmRefusal::NoSession)))
}

/// Whether there are no more events.
pub(crate) fn tells_no_more(told: &Heard) -> bool
    ensures { Decides result (TellsNoMore told.now) }
{
    matches!(told, Heard::Dm(DmReply::Refused(DmRefusal::Again)))
}

/// The size of the file.
pub(crate) fn size_told(told: &Heard) -> Option<u64>
    ensures { result ≡ size_told told.now }
{
    match told {
        Heard::Dm(DmReply::Attr { size, .. }) => Some(*size),
        _ => None,
    }
}

/// Why the call was refused.
pub(crate) fn refusal_told(told: &Heard) -> Option<DmRefusal>
    ensures { result ≡ refusal_told told.now }
{
    match told {
        Heard::Dm(DmReply::Refused(why)) => Some(*why),
        _ => None,
    }
}

/// What is held of the file's segments.
pub(crate) fn segments_told(told: &Heard) -> Option<&Segments>
    ensures { MatchOption result (segments_told told.now ≡ None) (λ s. segments_told told.now ≡ Some s.now) }
{
    match told {
        Heard::Dm(DmReply::Alloc(segments)) => Some(segments),
        _ => None,
    }
}

/// The messages that were handed out.
pub(crate) fn messages_told(told: &Heard) -> Option<&Bytes>
    ensures { MatchOption result (messages_told told.now ≡ None) (λ bytes. messages_told told.now ≡ Some bytes.now) }
{
    match told {
        Heard::Dm(DmReply::Packed { bytes, .. }) => Some(bytes),
        _ => None,
    }
}

/// What came of a fetch. The bytes are moved.
pub(crate) fn fetched_told(told: Heard) -> Option<Result<Verified, FetchRefusal>>
    ensures { result ≡ fetched_told told }
{
    match told {
        Heard::Fetched(fetched) => Some(fetched),
        _ => None,
    }
}

/// The response to an event whose bytes were not fetched for that reason. For want of memory there is none.
pub(crate) fn response_to(why: FetchRefusal) -> Option<Response>
    ensures { result ≡ response_to why }
{
    match why {
        FetchRefusal::Media(cause) => Some(Response::Media(cause)),
        FetchRefusal::NoObject { .. } => Some(Response::Abort(LOST)),
        FetchRefusal::Memory => None,
    }
}
