//! Why a run ends before its lines do.
ghost use Rattle.std.specs.Prelude.{◌≡◌, ◌≢◌, IfOk, IfErr, OnOk};
ghost use Rattle.hsm_system.specs.Stops.{reply_of, call_reply_of, StopsNothing};

use hsm_types::{CallRefusal, DmRefusal, DmReply, Heard, Reply};
use std::alloc::AllocError;
use thiserror::Error;

/// Why a run ends before its lines do.
#[derive(Clone, Copy, Debug, PartialEq, Eq, Error)]
pub enum Stop {
    /// A call of the store's disk failed, in this event or in one before.
    #[error("the disk failed")]
    Disk,
    #[error("no memory")]
    Memory,
}

impl From<AllocError> for Stop {
    ghost use Rattle.std.specs.Prelude.{◌≡◌};
    ghost use Rattle.hsm_system.specs.declared.stops.Stop.TheVariants.{Memory};

    ghost from_gives = { λ _ stop. stop ≡ Memory };

    fn from(_e: AllocError) -> Stop {
        Stop::Memory
    }
}

/// Whether a run goes on after that answer to a caller, or to the store itself.
pub(crate) fn answered(reply: Reply) -> Result<(), Stop>
    ensures served { OnOk result ((reply ≢ Reply.Refused CallRefusal.Memory) × (reply ≢ Reply.Refused CallRefusal.Disk)) }
    ensures stopped { IfErr result (λ stop. reply ≡ call_reply_of stop) }
{
    match reply {
        Reply::Refused(CallRefusal::Disk) => Err(Stop::Disk),
        Reply::Refused(CallRefusal::Memory) => Err(Stop::Memory),
        _ => Ok(()),
    }
}

/// Whether it goes on after that answer to a session.
pub(crate) fn told(reply: DmReply) -> Result<(), Stop>
    ensures served { OnOk result (StopsNothing reply) }
    ensures stopped { IfErr result (λ stop. reply ≡ reply_of stop) }
{
    match reply {
        DmReply::Refused(DmRefusal::Disk) => Err(Stop::Disk),
        DmReply::Refused(DmRefusal::Memory) => Err(Stop::Memory),
        _ => Ok(()),
    }
}

/// What is heard of a session's call that the store itself answered. A fault of the disk and want of memory are not.
pub(crate) fn served(reply: DmReply) -> Result<Heard, Stop>
    ensures served { IfOk result (λ heard. (heard ≡ Heard.Dm reply) × StopsNothing reply) }
    ensures stopped { IfErr result (λ stop. reply ≡ reply_of stop) }
{
    match reply {
        DmReply::Refused(DmRefusal::Disk) => Err(Stop::Disk),
        DmReply::Refused(DmRefusal::Memory) => Err(Stop::Memory),
        _ => Ok(Heard::Dm(reply)),
    }
}
