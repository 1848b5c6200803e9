//! Stub entries of a file, as a snapshot has them.
ghost use Rattle.std.specs.Prelude.{◌≡◌, ◌↔◌, ◌++◌, ◌<◌, [], ◌∷◌, ◌≤◌, length, IfOk, IsErrOf, IsTrue, OnOk};
ghost use Rattle.std.specs.List.{AllByRecursion};
ghost use Rattle.hsm_types.specs.Segments.{segment_len};
ghost use Rattle.hsm_types.specs.Stubs.{FitsFile};
ghost use Rattle.snapshot_text.specs.Files.{present, places_in_segment, NumbersFit, HasNoBlocks};
ghost use Rattle.snapshot_text.specs.FileValidity.{is_above, AreLawfulStubs};

use crate::file_places::{FilePlaces, count_present, segment_places};
use crate::kept::refusal_of;
use crate::snapshot::ReadRefusal;
use hsm_types::{LAST_VOLUME, SEGMENT_BYTES, Stub};
use managed_regions::ManagedRegions;
use std::alloc::Global;
use stub_map::StubMap;

/// The stub entries of a file, if they are lawful and at most so many.
pub(crate) fn stubs_of(
    alloc: Global,
    size: u64,
    regions: &ManagedRegions,
    places: &FilePlaces,
    stubs: &[(u32, Stub)],
    limit: u32,
) -> Result<StubMap, ReadRefusal>
    ensures lawful { OnOk result (AreLawfulStubs size regions.now places.now stubs.now) }
    ensures within { OnOk result (length stubs.now ≤ limit) }
    ensures ok { IfOk result (λ kept. kept ≡ stubs.now) }
    ensures fits { IfOk result (AllByRecursion NumbersFit) }
    ensures corrupt { IsErrOf result ReadRefusal.Corrupt → AreLawfulStubs size regions.now places.now stubs.now → length stubs.now ≤ limit → ⊥ }
{
    let mut kept = StubMap::new(alloc);
    let mut before = None;
    for entry in stubs {
        let (segment, stub) = *entry;
        if !is_above(before, segment) || !is_lawful(size, regions, places, segment, stub) {
            return Err(ReadRefusal::Corrupt);
        }
        put(&mut kept, segment, stub, limit)?;
        before = Some(segment);
    }
    // Read for the order of the entries.
    let _count = kept.len();
    Ok(kept)
}

/// Puts an entry behind those of lower segments, which with it may be at most so many.
#[tactic(auto, using(crate::proofs::LawfulStubs::last_steps))]
fn put(kept: &mut StubMap, segment: u32, stub: Stub, limit: u32) -> Result<(), ReadRefusal>
    requires { AllByRecursion (λ x. x.0 < segment) kept.old }
    ensures ok { OnOk result (kept.new ≡ kept.old ++ (segment, stub) ∷ []) }
    ensures few { OnOk result (length kept.old < limit) }
    ensures fits { NumbersFit (segment, stub) }
    ensures corrupt { IsErrOf result ReadRefusal.Corrupt → length kept.old < limit → ⊥ }
{
    // Read for the bytes of each digest.
    let _len = stub.entry.print().digest.0.len();
    if let Err(why) = kept.seal(segment, stub.entry, 0, limit) {
        return Err(refusal_of(why));
    }
    if stub.offline {
        if let Err(why) = kept.punch(segment) {
            return Err(refusal_of(why));
        }
    }
    Ok(())
}

/// Whether the segment stands behind the first one, if there is one before it.
fn is_above(before: Option<u32>, segment: u32) -> bool
    ensures { result ≡ is_above before segment }
{
    match before {
        Some(before) => before < segment,
        None => true,
    }
}

/// Whether a file of that size, with these regions and its blocks at these places, may have the entry.
fn is_lawful(
    size: u64,
    regions: &ManagedRegions,
    places: &FilePlaces,
    segment: u32,
    stub: Stub,
) -> bool
    ensures { IsTrue result ↔ (FitsFile size regions.now (segment, stub) × HasNoBlocks places.now (segment, stub)) }
{
    if size <= u64::from(segment) * SEGMENT_BYTES
        || u64::from(stub.entry.print().len) != segment_len(size, segment)
        || LAST_VOLUME < stub.entry.place().volume
    {
        return false;
    }
    !stub.offline || (regions.covers(segment) && has_none(places, segment))
}

/// How many bytes the segment has of a file of that size.
fn segment_len(size: u64, segment: u32) -> u64
    ensures { result ≡ segment_len size segment }
{
    size.saturating_sub(u64::from(segment) * SEGMENT_BYTES)
        .min(SEGMENT_BYTES)
}

/// Whether no block of the segment has a place.
fn has_none(places: &FilePlaces, segment: u32) -> bool
    ensures { IsTrue result ↔ (present (places_in_segment segment places.now) ≡ []) }
{
    count_present(segment_places(places.as_slice(), segment)) == 0
}
