//! What sessions are told of the segments of a live file.
ghost use Rattle.std.specs.Prelude.{◌≡◌, ◌-◌, ◌*◌, ◌≤◌, None, Some, IsSome, IfOk, MatchOption, map, take, drop, count_by, is_some};
ghost use Rattle.hsm_types.specs.Limits.{file_bytes, segment_blocks};
ghost use Rattle.hsm_types.specs.Messages.{no_token};
ghost use Rattle.hsm_types.specs.Stubs.{stub_at};
ghost use Rattle.hsm_types.specs.declared.dm.DmCall.TheVariants.{ProbeHole, GetAllocInfo};
ghost use Rattle.hsm_types.specs.Keyed.{find_key};
ghost use Rattle.plain_model.specs.Segments.{probe_start, probe_end, nothing_to_punch, segment_as, segments_told};
ghost use Rattle.plain_model.specs.State.{FileState};
ghost use Rattle.hsm_core.specs.Services.{AreOf, IsMadeOf, service_on};

use crate::services::replies::{refused, twice};
use disk_model::Disk;
use file_store::FileStore;
use hsm_types::{DmRefusal, DmReply, Handle, Range, SEGMENT_BYTES, Segment, Segments, segments_in};
use snapshot_text::FileParts;
use std::alloc::{AllocError, Global};
use stub_map::State;

/// The part of a range that a punch could give up.
pub(crate) fn probe<D: Disk>(
    files: &FileStore<D>,
    handle: Handle,
    offset: u64,
    len: u64,
) -> Result<(DmReply, DmReply), AllocError>
    requires { IsSome (find_key (λ f. f.key) handle.key files.now.held.files) }
    ensures { IfOk result (λ r. AreOf (service_on files.now (ProbeHole no_token handle offset len)) r) }
{
    match hole(offset, len, files.size(handle.key)) {
        Some(hole) => twice(DmReply::Range {
            offset: hole.offset,
            len: hole.len,
        }),
        None => Ok(refused(DmRefusal::BadRange)),
    }
}

/// The part of a range that a punch could give up, of a file of that size.
fn hole(offset: u64, len: u64, size: u64) -> Option<Range>
    requires { size ≤ file_bytes }
    ensures { MatchOption result (nothing_to_punch offset len size ≡ Some DmRefusal.BadRange) (λ hole. (nothing_to_punch offset len size ≡ None) × (hole.offset ≡ probe_start offset) × (hole.len ≡ probe_end offset len size - probe_start offset)) }
{
    if size <= offset {
        return None;
    }
    let start = u64::from(segments_in(offset)) * SEGMENT_BYTES;
    let end = if len == 0 || size - offset <= len {
        size
    } else {
        (offset + len) / SEGMENT_BYTES * SEGMENT_BYTES
    };
    if end <= start {
        return None;
    }
    Some(Range {
        offset: start,
        len: end - start,
    })
}

/// What is held of each segment of a file.
pub(crate) fn allocated<D: Disk>(
    files: &FileStore<D>,
    alloc: Global,
    handle: Handle,
) -> Result<(DmReply, DmReply), AllocError>
    requires { IsSome (find_key (λ f. f.key) handle.key files.now.held.files) }
    ensures { IfOk result (λ r. AreOf (service_on files.now (GetAllocInfo no_token handle)) r) }
{
    let size = files.size(handle.key);
    let parts = files.meta().catalog().parts(handle.key);
    twice(DmReply::Alloc(segments_of(alloc, size, parts)?))
}

/// What is held of each segment of a file of that size. It costs a step for each block, and a look-up for each segment.
pub(crate) fn segments_of(
    alloc: Global,
    size: u64,
    parts: &FileParts,
) -> Result<Segments, AllocError>
    requires { size ≤ file_bytes }
    ensures { (f : FileState) → IsMadeOf size parts.now.places parts.now.stubs f → IfOk result (λ told. told ≡ segments_told f) }
{
    let count = segments_in(size);
    let mut told = Vec::with_capacity(alloc, count as usize)?;
    for segment in 0..count {
        told.push(segment_of(segment, parts))?;
    }
    Ok(Segments::from(told))
}

/// What is held of one segment.
#[tactic(auto, using(crate::proofs::ToldSegments::mapped_places))]
fn segment_of(segment: u32, parts: &FileParts) -> Segment
    ensures { result ≡ segment_as (count_by (λ b. b) (take segment_blocks (drop (segment_blocks * segment) (map is_some parts.now.places)))) (stub_at segment parts.now.stubs) }
{
    let blocks = parts.mapped_in(segment);
    match parts.stubs().state(segment) {
        State::Resident => Segment::Resident { blocks },
        State::Sealed(entry) => Segment::Sealed { blocks, entry },
        State::Offline(entry) => Segment::Offline { entry },
    }
}
