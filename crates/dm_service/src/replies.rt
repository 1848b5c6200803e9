//! Replies as they are given: twice.
ghost use Rattle.std.specs.Prelude.{◌≡◌, IfOk};
ghost use Rattle.dm_service.specs.Services.{AreBoth, done_or};

use hsm_types::{DmRefusal, DmReply};
use std::alloc::AllocError;

pub(crate) fn twice(reply: DmReply) -> Result<(DmReply, DmReply), AllocError>
    ensures { IfOk result (λ r. AreBoth reply r) }
{
    let again = reply.clone()?;
    Ok((reply, again))
}

pub(crate) fn refused(why: DmRefusal) -> (DmReply, DmReply)
    ensures { AreBoth (DmReply.Refused why) result }
{
    (DmReply::Refused(why), DmReply::Refused(why))
}

/// The replies to a call that is done.
pub(crate) fn done() -> (DmReply, DmReply)
    ensures { AreBoth DmReply.Done result }
{
    (DmReply::Done, DmReply::Done)
}

/// The replies to a call that is done or refused.
pub(crate) fn ended(outcome: Result<(), DmRefusal>) -> (DmReply, DmReply)
    ensures { AreBoth (done_or outcome) result }
{
    match outcome {
        Ok(()) => done(),
        Err(why) => refused(why),
    }
}
