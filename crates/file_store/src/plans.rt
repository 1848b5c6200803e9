//! What an event needs before it changes anything: its records, the blocks that it frees, and memory.
ghost use Rattle.std.specs.Prelude.{◌≡◌, ℕ, ◌∷◌, [], ◌≤◌, ◌++◌, List, length, Some, IfOk, OnOk, OnErr, IsSome};
ghost use Rattle.hsm_types.specs.Keyed.{find_key};
ghost use Rattle.plain_model.specs.Blocks.{touched, size_after};
ghost use Rattle.hsm_types.specs.Limits.{file_bytes};
ghost use Rattle.hsm_types.specs.Stubs.{Stubs};
ghost use Rattle.snapshot_text.specs.declared.snapshot.Mapping.{Mapping};
ghost use Rattle.snapshot_text.specs.Files.{CatalogFile, present};
ghost use Rattle.snapshot_text.specs.FileRecords.{mappings_from};
ghost use Rattle.file_store.specs.declared.rewrites.Rewrite.{Rewrite};
ghost use Rattle.file_store.specs.Rewrites.{IsRewrite, IsRewriting, AreUnsealed, HasEntry, HasRoom, new_size, mappings_of, freed_by};

use crate::rewrites::Rewrite;
use file_body::{Body, TouchedBlocks, blocks_in};
use hsm_types::FileKey;
use journal_records::{Places, Record, Records};
use meta_store::Catalog;
use snapshot_text::FileParts;
use std::alloc::{AllocError, Global};
use stub_map::StubMap;

/// The records of a change of a file's bytes, and the blocks that it frees.
#[derive(Drop)]
pub(crate) struct Plan {
    pub(crate) records: Records,
    pub(crate) freed: Vec<u32>,
}

/// Plans a change of a live file's bytes, whose touched blocks get these places, and makes room for it in the body. At an `Err` the body is as
/// before.
pub(crate) fn prepare(
    alloc: Global,
    catalog: &Catalog,
    body: &mut Body,
    key: FileKey,
    change: Rewrite<'_>,
    touched: &TouchedBlocks,
    places: &[u32],
) -> Result<Plan, AllocError>
    requires live { IsSome (find_key (λ f. f.key) key catalog.now.files) }
    requires lawful { IsRewrite change }
    requires entry { (f : CatalogFile) → find_key (λ f. f.key) key catalog.now.files ≡ Some f → HasEntry change f.kept.stubs }
    requires count { length places.now ≡ length touched.now }
    ensures records { IfOk result (λ p. (f : CatalogFile) → find_key (λ f. f.key) key catalog.now.files ≡ Some f → IsRewriting key.ino change.entry (length body.old.bytes) f.kept.stubs (mappings_of touched.now places.now) p.records) }
    ensures freed { IfOk result (λ p. (f : CatalogFile) → find_key (λ f. f.key) key catalog.now.files ≡ Some f → p.freed.items ≡ freed_by (new_size change.entry body.old.bytes) touched.now f.places) }
    ensures room { OnOk result (HasRoom change.entry body.old body.new) }
    ensures err { OnErr result (body.new ≡ body.old) }
{
    let size = body.len();
    let parts = catalog.parts(key);
    let records = records_of(alloc, key.ino, size, parts.stubs(), change, touched, places)?;
    let freed = freed_by(alloc, parts, change.size_after(size), touched)?;
    change.make_room(alloc, body)?;
    Ok(Plan { records, freed })
}

/// The records of an event that is one.
pub(crate) fn one(alloc: Global, change: Record) -> Result<Records, AllocError>
    ensures { IfOk result (λ rs. rs ≡ change ∷ []) }
{
    let mut records = Vec::new(alloc);
    records.push(change)?;
    Ok(Records::from(records))
}

/// The blocks that a live file uses.
pub(crate) fn blocks_of(
    alloc: Global,
    catalog: &Catalog,
    key: FileKey,
) -> Result<Vec<u32>, AllocError>
    requires { IsSome (find_key (λ f. f.key) key catalog.now.files) }
    ensures { IfOk result (λ v. (f : CatalogFile) → find_key (λ f. f.key) key catalog.now.files ≡ Some f → v.items ≡ present f.places) }
{
    let mut blocks = Vec::new(alloc);
    catalog.parts(key).put_from(0, &mut blocks)?;
    Ok(blocks)
}

/// What a change is of the file on that inode, which has that size and these entries.
fn records_of(
    alloc: Global,
    ino: u64,
    size: u64,
    stubs: &StubMap,
    change: Rewrite<'_>,
    touched: &TouchedBlocks,
    places: &[u32],
) -> Result<Records, AllocError>
    requires lawful { IsRewrite change }
    requires size { size ≤ file_bytes }
    requires entry { HasEntry change stubs.now }
    requires count { length places.now ≡ length touched.now }
    ensures { IfOk result (IsRewriting ino change.entry size stubs.now (mappings_of touched.now places.now)) }
{
    let (end, others) = touched.runs();
    let (first, rest) = places.split_at(end.count as usize);
    let (from, to) = change.unsealed(size);
    let mut records = Vec::with_capacity(alloc, 4)?;
    records.push(change.head(ino, size, stubs))?;
    push_unsealed(&mut records, ino, stubs, from, to)?;
    push_map(alloc, &mut records, ino, end.first, first)?;
    push_map(alloc, &mut records, ino, others.first, rest)?;
    Ok(Records::from(records))
}

/// Puts the records behind the others that the segments from the first up to the second have no entry, of those that have one. It costs these.
fn push_unsealed(
    records: &mut Vec<Record>,
    ino: u64,
    stubs: &StubMap,
    from: u32,
    to: u32,
) -> Result<(), AllocError>
    ensures { OnOk result (AreUnsealed ino from to stubs.now records.old.items records.new.items) }
{
    let mut start = from;
    while let Some(segment) = stubs.next(start) {
        if segment >= to {
            break;
        }
        records.push(Record::Stub {
            ino,
            segment,
            stub: None,
        })?;
        start = segment + 1;
    }
    Ok(())
}

/// Puts the record behind the others that the blocks from that one on lie at these places, if there are any.
fn push_map(
    alloc: Global,
    records: &mut Vec<Record>,
    ino: u64,
    block: u32,
    places: &[u32],
) -> Result<(), AllocError>
    ensures { OnOk result ((change : Rewrite) (size : ℕ) (stubs : Stubs) (before : List Mapping) → IsRewriting ino change size stubs before records.old.items → IsRewriting ino change size stubs (before ++ mappings_from block places.now) records.new.items) }
{
    if places.is_empty() {
        return Ok(());
    }
    let places = Places::from(Vec::from_slice(alloc, places)?);
    records.push(Record::Map { ino, block, places })?;
    Ok(())
}

/// The blocks that a file frees as it gets that size, and new places for the blocks that are touched.
#[tactic(auto, using(crate::proofs::RewriteRecords::freed_runs))]
fn freed_by(
    alloc: Global,
    parts: &FileParts,
    size: u64,
    touched: &TouchedBlocks,
) -> Result<Vec<u32>, AllocError>
    requires { size ≤ file_bytes }
    ensures { IfOk result (λ v. v.items ≡ freed_by size touched.now parts.now.places) }
{
    let (end, others) = touched.runs();
    let mut freed = Vec::new(alloc);
    parts.put_from(blocks_in(size) as u32, &mut freed)?;
    parts.put_run(end.first, end.count, &mut freed)?;
    parts.put_run(others.first, others.count, &mut freed)?;
    Ok(freed)
}
