//! Reading the bodies of a store that was just opened.
ghost use Rattle.std.specs.Prelude.{◌≡◌, ◌+◌, ◌-◌, ◌*◌, ◌/◌, ◌%◌, ◌<◌, ◌≤◌, ◌==◌, ◌++◌, if◌then◌else◌, List, ℕ, None, true, min, length, take};
ghost use Rattle.std.specs.Prelude.{get_or, replicate, IfOk, OnOk, IsErrOf};
ghost use Rattle.std.specs.List.{AllByRecursion};
ghost use Rattle.plain_model.specs.Plain.{written};
ghost use Rattle.plain_model.specs.Blocks.{blocks_in};
ghost use Rattle.disk_model.specs.Calls.{HasCause, Counts};
ghost use Rattle.disk_model.specs.Images.{part};
ghost use Rattle.commit_slots.specs.Places.{layout_of};
ghost use Rattle.snapshot_text.specs.Files.{geometry_of, present};
ghost use Rattle.meta_store.specs.Images.{blocks_in_image};
ghost use Rattle.hsm_types.specs.Limits.{segment_blocks};
ghost use Rattle.hsm_types.specs.Stubs.{offline_at};
ghost use Rattle.file_body.specs.HeldBodies.{no_body, is_away, AreHere, SameAway};
ghost use Rattle.file_store.specs.Steps.{OnlyReads};
ghost use Rattle.file_store.specs.Bodies.{body_at, held_at, held_with, AreBodies};

use commit_slots::Layout;
use disk_model::{Disk, Failed, read_at};
use file_body::Body;
use hsm_types::{BLOCK_BYTES, FILE_BYTES, SEGMENT_BYTES, segments_in};
use meta_store::Catalog;
use snapshot_text::{MetaRefusal, geometry_of};
use std::alloc::{AllocError, Global};
use stub_map::StubMap;

/// Where the body of the file with that inode is.
pub(crate) fn slot(ino: u64) -> usize
    requires { 1 ≤ ino }
    ensures { result ≡ ino - 1 }
{
    (ino - 1) as usize
}

/// The bodies of all files, that of inode i at i - 1, and none where no file has the inode. It costs their mapped blocks.
pub(crate) fn load_bodies<D: Disk>(
    alloc: Global,
    disk: &mut D,
    catalog: &Catalog,
) -> Result<Vec<Body>, MetaRefusal>
    requires length { D.length_of disk.old ≡ (layout_of catalog.now.geometry).whole }
    ensures reads { OnlyReads D.Disk disk.old disk.new }
    ensures count { IfOk result (λ bodies. length bodies.items ≡ (geometry_of catalog.now.geometry).files) }
    // On a disk that doesn't tell, too.
    ensures sizes { IfOk result (λ bodies. AreBodies bodies.items catalog.now.files) }
    ensures loaded { IfOk result (λ bodies. (c : List ℕ) → D.gives disk.old c → held_with bodies.items catalog.now ≡ held_at (blocks_in_image catalog.now.geometry c) catalog.now) }
    ensures faults { Counts (IsErrOf result MetaRefusal.Disk) (D.fault_count disk.old) (D.fault_count disk.new) }
{
    let geometry = catalog.geometry();
    let Ok(mut bodies) = empty(alloc, geometry_of(geometry).files) else {
        return Err(MetaRefusal::Memory);
    };
    for index in 0..catalog.names().len() {
        let (key, _name, size, parts) = catalog.file(index).unwrap();
        let places = parts.places();
        bodies[slot(key.ino)] = load_body(alloc, disk, geometry, size, places, parts.stubs())?;
    }
    Ok(bodies)
}

/// So many bodies of no bytes.
fn empty(alloc: Global, count: u32) -> Result<Vec<Body>, AllocError>
    ensures { IfOk result (λ bodies. bodies.items ≡ replicate count no_body) }
{
    let mut bodies = Vec::with_capacity(alloc, count as usize)?;
    for _ in 0..count {
        bodies.push(Body::new(alloc))?;
    }
    Ok(bodies)
}

/// The body of that size whose blocks lie at these places. Segments that are offline are away from it. It costs the blocks that aren't holes, the
/// segments and the entries.
fn load_body<D: Disk>(
    alloc: Global,
    disk: &mut D,
    geometry: u32,
    size: u64,
    places: &[Option<u32>],
    stubs: &StubMap,
) -> Result<Body, MetaRefusal>
    requires whole { D.length_of disk.old ≡ (layout_of geometry).whole }
    requires size { size ≤ FILE_BYTES }
    requires count { length places.now ≡ blocks_in size }
    requires within { AllByRecursion (λ place. place < (geometry_of geometry).blocks) (present places.now) }
    requires starts { AllByRecursion (λ x. SEGMENT_BYTES * x.0 < size) stubs.now }
    // A segment that is offline has no blocks.
    requires away { (i : ℕ) → offline_at stubs.now (i / segment_blocks) ≡ true → get_or places.now i None ≡ None }
    ensures reads { OnlyReads D.Disk disk.old disk.new }
    ensures size { IfOk result (λ body. length body.bytes ≡ size) }
    ensures here { IfOk result (λ body. (j : ℕ) → is_away body j ≡ offline_at stubs.now j) }
    ensures loaded { IfOk result (λ body. (c : List ℕ) → D.gives disk.old c → body.bytes ≡ body_at (blocks_in_image geometry c) size places.now) }
    ensures faults { Counts (IsErrOf result MetaRefusal.Disk) (D.fault_count disk.old) (D.fault_count disk.new) }
{
    let Ok(mut body) = zeros(alloc, size, stubs) else {
        return Err(MetaRefusal::Memory);
    };
    let mut start = 0;
    for place in places {
        if let Some(place) = *place {
            let Ok(()) = fill(alloc, disk, geometry, place, &mut body, start) else {
                return Err(MetaRefusal::Disk);
            };
        }
        start += BLOCK_BYTES;
    }
    Ok(body)
}

/// A body of so many zeros, from which the segments are away that are offline by these entries: they take no memory.
fn zeros(alloc: Global, size: u64, stubs: &StubMap) -> Result<Body, AllocError>
    requires size { size ≤ FILE_BYTES }
    requires starts { AllByRecursion (λ x. SEGMENT_BYTES * x.0 < size) stubs.now }
    ensures bytes { IfOk result (λ body. body.bytes ≡ replicate size 0) }
    ensures here { IfOk result (λ body. (j : ℕ) → is_away body j ≡ offline_at stubs.now j) }
{
    let mut body = Body::new(alloc);
    for segment in 0..segments_in(size) {
        let end = size.min((u64::from(segment) + 1) * SEGMENT_BYTES);
        lengthen(alloc, &mut body, end, stubs.is_offline(segment))?;
    }
    Ok(body)
}

/// Lengthens a body of full segments up to that end, by one that is away or here.
fn lengthen(alloc: Global, body: &mut Body, end: u64, away: bool) -> Result<(), AllocError>
    requires full { length body.old.bytes % SEGMENT_BYTES ≡ 0 }
    requires some { length body.old.bytes < end }
    requires most { end ≤ length body.old.bytes + SEGMENT_BYTES }
    requires file { end ≤ FILE_BYTES }
    ensures bytes { OnOk result (body.new.bytes ≡ body.old.bytes ++ replicate (end - length body.old.bytes) 0) }
    ensures away { OnOk result ((j : ℕ) → is_away body.new j ≡ (if j == length body.old.bytes / SEGMENT_BYTES then away else is_away body.old j)) }
{
    let count = end - body.len();
    if away {
        body.lengthen_away(count)
    } else {
        body.resize(alloc, end)
    }
}

/// Reads a data block into the body, which may end in it.
fn fill<D: Disk>(
    alloc: Global,
    disk: &mut D,
    geometry: u32,
    place: u32,
    body: &mut Body,
    start: u64,
) -> Result<(), Failed>
    requires whole { D.length_of disk.old ≡ (layout_of geometry).whole }
    requires place { place < (geometry_of geometry).blocks }
    requires start { start < length body.old.bytes }
    requires here { AreHere start (start + min BLOCK_BYTES (length body.old.bytes - start)) body.old }
    ensures reads { OnlyReads D.Disk disk.old disk.new }
    ensures size { length body.new.bytes ≡ length body.old.bytes }
    ensures same { SameAway body.old body.new }
    ensures filled { OnOk result ((c : List ℕ) → D.gives disk.old c → body.new.bytes ≡ written start (take (length body.old.bytes - start) (part (blocks_in_image geometry c) (BLOCK_BYTES * place) BLOCK_BYTES)) body.old.bytes) }
    ensures cause { HasCause result (D.fault_count disk.old) (D.fault_count disk.new) }
{
    let mut block = [0; BLOCK_BYTES as usize];
    load_block(disk, geometry, place, &mut block)?;
    let count = BLOCK_BYTES.min(body.len() - start) as usize;
    body.write(alloc, start, &block[..count]).unwrap();
    Ok(())
}

/// Reads the data block at that place.
fn load_block<D: Disk>(
    disk: &mut D,
    geometry: u32,
    place: u32,
    block: &mut [u8],
) -> Result<(), Failed>
    requires whole { D.length_of disk.old ≡ (layout_of geometry).whole }
    requires place { place < (geometry_of geometry).blocks }
    requires len { length block.old ≡ BLOCK_BYTES }
    ensures reads { OnlyReads D.Disk disk.old disk.new }
    ensures bytes { OnOk result ((c : List ℕ) → D.gives disk.old c → block.new ≡ part (blocks_in_image geometry c) (BLOCK_BYTES * place) BLOCK_BYTES) }
    ensures cause { HasCause result (D.fault_count disk.old) (D.fault_count disk.new) }
{
    read_at(disk, offset_of(geometry, place), block)?;
    Ok(())
}

/// Where on the disk the data block at that place begins.
fn offset_of(geometry: u32, place: u32) -> u64
    requires { place < (geometry_of geometry).blocks }
    ensures begins { result ≡ (layout_of geometry).blocks + BLOCK_BYTES * place }
    ensures fits { result + BLOCK_BYTES ≤ (layout_of geometry).whole }
{
    Layout::of_geometry(geometry).blocks + BLOCK_BYTES * u64::from(place)
}
