//! What an answer says.
ghost use Rattle.std.specs.Prelude.{◌≡◌, Some, None, MatchOption, IfOk, IfErr};
ghost use Rattle.hsm_types.specs.Regions.{covers};
ghost use Rattle.migrate_daemon.specs.Hearing.{is_gone, has_no_more, is_settled, space_in, messages_in, table_in, is_done, refusal_in, regions_in};
ghost use Rattle.migrate_daemon.specs.Hearing.{data_in, reply_in, copied_in};

use crate::shares::Space;
use hsm_types::{Bytes, CopyRefusal, DmRefusal, DmReply, Heard, Region, StubEntry, Table};
use managed_regions::contains;

/// Whether the session is gone.
pub(crate) fn is_gone(told: &Heard) -> bool
    ensures { result ≡ is_gone told.now }
{
    match told {
        Heard::Dm(DmReply::Refused(DmRefusal::NoSession)) => true,
        _ => false,
    }
}

/// Whether there are no more events.
pub(crate) fn has_no_more(told: &Heard) -> bool
    ensures { result ≡ has_no_more told.now }
{
    match told {
        Heard::Dm(DmReply::Refused(DmRefusal::Again)) => true,
        _ => false,
    }
}

/// Whether the event that was answered needs no further answer.
pub(crate) fn is_settled(told: &Heard) -> bool
    ensures { result ≡ is_settled told.now }
{
    match told {
        Heard::Dm(DmReply::Done)
        | Heard::Dm(DmReply::Refused(DmRefusal::NoToken))
        | Heard::Dm(DmReply::Refused(DmRefusal::NotYours { .. })) => true,
        _ => false,
    }
}

/// How much space is used.
pub(crate) fn space_of(told: &Heard) -> Option<Space>
    ensures { result ≡ space_in told.now }
{
    match told {
        Heard::Dm(DmReply::Space { used, total }) => Some(Space {
            used: *used,
            total: *total,
        }),
        _ => None,
    }
}

/// The buffer of messages.
pub(crate) fn messages_of(told: &Heard) -> Option<&[u8]>
    ensures { MatchOption result (messages_in told.now ≡ None) (λ bytes. messages_in told.now ≡ Some bytes.now) }
{
    match told {
        Heard::Dm(DmReply::Packed { bytes, tokens: _ }) => Some(bytes.as_slice()),
        _ => None,
    }
}

/// The table.
pub(crate) fn table_of(told: &Heard) -> Option<&Table>
    ensures { MatchOption result (table_in told.now ≡ None) (λ table. table_in told.now ≡ Some table.now) }
{
    match told {
        Heard::Dm(DmReply::Table(table)) => Some(table),
        _ => None,
    }
}

/// Whether the call was done.
pub(crate) fn is_done(reply: &DmReply) -> bool
    ensures { result ≡ is_done reply.now }
{
    match reply {
        DmReply::Done => true,
        _ => false,
    }
}

/// Why the call was refused.
pub(crate) fn refusal_of(reply: &DmReply) -> Option<DmRefusal>
    ensures { result ≡ refusal_in reply.now }
{
    match reply {
        DmReply::Refused(why) => Some(*why),
        _ => None,
    }
}

/// The regions of a file.
pub(crate) fn regions_of(reply: &DmReply) -> Option<&[Region]>
    ensures { MatchOption result (regions_in reply.now ≡ None) (λ regions. regions_in reply.now ≡ Some regions.now) }
{
    match reply {
        DmReply::Regions(regions) => Some(regions.as_slice()),
        _ => None,
    }
}

/// The bytes of a file, or what else was answered.
pub(crate) fn data_of(reply: DmReply) -> Result<Bytes, DmReply>
    ensures data { IfOk result (λ bytes. reply ≡ DmReply.Data bytes) }
    ensures other { IfErr result (λ other. (other ≡ reply) × (data_in reply ≡ None)) }
{
    match reply {
        DmReply::Data(bytes) => Ok(bytes),
        other => Err(other),
    }
}

/// The answer to a call.
pub(crate) fn reply_of(told: Heard) -> Option<DmReply>
    ensures { result ≡ reply_in told }
{
    match told {
        Heard::Dm(reply) => Some(reply),
        _ => None,
    }
}

/// What becomes of a copy.
pub(crate) fn copied_of(told: &Heard) -> Option<Result<StubEntry, CopyRefusal>>
    ensures { result ≡ copied_in told.now }
{
    match told {
        Heard::Copied(copied) => Some(*copied),
        _ => None,
    }
}

/// Whether one of the regions has all flags and covers the segment.
pub(crate) fn covers(regions: &[Region], segment: u32) -> bool
    ensures { result ≡ covers regions.now segment }
{
    regions.iter().any(|region| contains(segment, *region))
}
