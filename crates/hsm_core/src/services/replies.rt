//! Replies to sessions, which are given twice: to the session and to the history.
ghost use Rattle.std.specs.Prelude.{◌≡◌, IfOk};
ghost use Rattle.dm_service.specs.Services.{AreBoth};
ghost use Rattle.hsm_core.specs.Services.{replies_to};

use hsm_types::{DmRefusal, DmReply};
use snapshot_text::MetaRefusal;
use std::alloc::AllocError;

/// The reply and a copy of it.
pub(crate) fn twice(reply: DmReply) -> Result<(DmReply, DmReply), AllocError>
    ensures { IfOk result (λ r. AreBoth reply r) }
{
    let again = reply.clone()?;
    Ok((reply, again))
}

/// The replies to a call that is refused.
pub(crate) fn refused(why: DmRefusal) -> (DmReply, DmReply)
    ensures { AreBoth (DmReply.Refused why) result }
{
    (DmReply::Refused(why), DmReply::Refused(why))
}

/// The replies to a call that is done.
pub(crate) fn done() -> (DmReply, DmReply)
    ensures { AreBoth DmReply.Done result }
{
    (DmReply::Done, DmReply::Done)
}

/// The replies to a change of a file that is done, or that its part refuses.
pub(crate) fn changed(ended: Result<(), MetaRefusal>) -> Result<(DmReply, DmReply), MetaRefusal>
    ensures { result ≡ replies_to ended }
{
    match ended {
        Ok(()) => Ok(done()),
        Err(MetaRefusal::Part(why)) => Ok(refused(why)),
        Err(why) => Err(why),
    }
}
