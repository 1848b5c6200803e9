//! Which segments a call needs, and whether one of them is offline. Finding out takes no memory.
ghost use Rattle.std.specs.Prelude.{◌≡◌, ◌≤◌, is_some, length, map};
ghost use Rattle.std.specs.List.{AllByRecursion, list_any};
ghost use Rattle.std.specs.Option.{option_map};
ghost use Rattle.hsm_types.specs.Refusals.{first_refusal};
ghost use Rattle.hsm_types.specs.Segments.{segments_met, segment_around};
ghost use Rattle.hsm_types.specs.Stubs.{stub_at, already_offline, offline_at};
ghost use Rattle.hsm_types.specs.Limits.{file_bytes, widest_limits};
ghost use Rattle.plain_model.specs.Accesses.{needs};
ghost use Rattle.plain_model.specs.State.{file_at, bytes_of};
ghost use Rattle.file_store.specs.Stores.{IsStubbed};
ghost use Rattle.hsm_core.specs.Targets.{IsTarget, IsBounded};

use crate::judging::Target;
use disk_model::Disk;
use file_store::FileStore;
use hsm_types::{Call, DmRefusal, SEGMENT_BYTES, segments_in};
use stub_map::StubMap;

/// Whether the call needs a segment that is offline. It costs the stub entries of the segments that it needs.
pub(crate) fn needs_segment<D: Disk>(files: &FileStore<D>, target: Target, call: &Call) -> bool
    requires target { IsTarget files.now.held.files target.key target }
    requires bounded { IsBounded widest_limits call.now }
    ensures needs { result ≡ needs (file_at target.key files.now.held.files).kept.stubs (length (bytes_of target.key files.now.held.files)) call.now }
    ensures stubbed { AllByRecursion IsStubbed files.now.held.files }
{
    let stubs = files.meta().catalog().stubs(target.key);
    needs(stubs, target.size, call)
}

/// Whether the call, on a file of that size, needs a segment that is offline.
fn needs(stubs: &StubMap, size: u64, call: &Call) -> bool
    requires size { size ≤ file_bytes }
    requires bounded { IsBounded widest_limits call.now }
    ensures { result ≡ needs stubs.now size call.now }
{
    match call {
        Call::Read { offset, len, .. } => {
            first_offline(stubs, *offset, offset.saturating_add(*len).min(size)).is_some()
        }
        Call::Write { offset, body, .. } => {
            let end = *offset + body.as_slice().len() as u64;
            first_offline(stubs, (*offset).min(size), end).is_some()
        }
        Call::Truncate { size: to, .. } => *to != size && is_around(stubs, (*to).min(size)),
        _ => false,
    }
}

/// The first offline segment that the bytes from the first place up to the second meet. It costs the stub entries of the segments that they meet.
#[tactic(auto, using(crate::proofs::Needed::any_first, crate::proofs::Aways::first_is))]
pub(crate) fn first_offline(stubs: &StubMap, from: u64, to: u64) -> Option<u32>
    requires { to ≤ file_bytes }
    ensures any { is_some result ≡ list_any (offline_at stubs.now) (segments_met from to) }
    ensures refuses { first_refusal (map (λ j. already_offline j (stub_at j stubs.now)) (segments_met from to)) ≡ option_map (λ segment. DmRefusal.Offline segment) result }
{
    if to <= from {
        return None;
    }
    stubs.first_offline((from / SEGMENT_BYTES) as u32, segments_in(to))
}

/// Whether this place is strictly inside a segment that is offline.
fn is_around(stubs: &StubMap, place: u64) -> bool
    requires { place ≤ file_bytes }
    ensures { result ≡ list_any (offline_at stubs.now) (segment_around place) }
{
    place % SEGMENT_BYTES != 0 && stubs.is_offline((place / SEGMENT_BYTES) as u32)
}
