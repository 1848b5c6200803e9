//! The judgement of a snapshot that was read: the catalog that it says, if it is a valid one.

ghost use Rattle.std.specs.Prelude.{◌≡◌, ℕ, ◌≤◌, ◌++◌, [], ◌∷◌, map, is_some, IfOk, OnOk};
ghost use Rattle.hsm_types.specs.Limits.{IsCountable, last_number};
ghost use Rattle.plain_model.specs.Plain.{named};
ghost use Rattle.std.specs.Bool.{OnTrue};
ghost use Rattle.std.specs.Result.{IsErrOf};
ghost use Rattle.meta_store.specs.Catalogs.{Catalog, IsCatalog, AreLengths};
ghost use Rattle.snapshot_text.specs.Files.{geometry_of};
ghost use Rattle.snapshot_text.specs.Snapshots.{raw_file, raw_snapshot, snapshot_file};
ghost use Rattle.meta_store.specs.Snapshots.{snapshot_of};
ghost use Rattle.meta_store.specs.Validity.{last_inode, is_file, can_follow, Follows, IsNext, names_in, HasTaken};

use crate::catalog::Catalog;
use hsm_types::{BLOCK_BYTES, Geometry, LAST_GENERATION, LAST_NUMBER, Word, can_name};
use snapshot_text::{RawFile, RawSnapshot, ReadRefusal, are_extents, claim, geometry_of, parts_of};
use std::alloc::Global;

/// The catalog that a snapshot says, if it is a valid one of that geometry. The files are walked once, with a flag for each block of the disk, and
/// what they keep is moved.
pub(crate) fn catalog_of(
    alloc: Global,
    geometry: u32,
    snapshot: RawSnapshot,
) -> Result<Catalog, ReadRefusal>
    requires { geometry ≤ 1 }
    ensures found { IfOk result (λ c. (c.geometry ≡ geometry) × (raw_snapshot snapshot ≡ snapshot_of snapshot.number c) × IsCatalog c) }
    ensures lengths { IfOk result AreLengths }
    ensures number { OnOk result (snapshot.number ≤ last_number) }
    ensures corrupt { IsErrOf result ReadRefusal.Corrupt → (n : ℕ) (c : Catalog) → c.geometry ≡ geometry → n ≤ last_number → IsCatalog c → AreLengths c → raw_snapshot snapshot ≡ snapshot_of n c → ⊥ }
{
    let next = snapshot.next;
    if snapshot.number > LAST_NUMBER || next == 0 || next > LAST_GENERATION {
        return Err(ReadRefusal::Corrupt);
    }
    let bounds = geometry_of(geometry);
    let mut catalog = Catalog::new(alloc, geometry, next)?;
    let mut blocks = vec![in alloc; false; bounds.blocks as usize]?;
    let flags = blocks.as_mut_slice();
    let mut last = 0;
    for file in snapshot.files {
        let ino = file.key.ino;
        take_in(alloc, &mut catalog, flags, bounds, next, last, file)?;
        last = ino;
    }
    // Read for what is true of each catalog.
    let _geometry = catalog.geometry();
    Ok(catalog)
}

/// Adds a file behind those of the catalog, the last of which has the inode `last`, if it can stand there.
fn take_in(
    alloc: Global,
    catalog: &mut Catalog,
    flags: &mut [bool],
    geometry: Geometry,
    next: u64,
    last: u64,
    mut file: RawFile,
) -> Result<(), ReadRefusal>
    requires geometry { geometry ≡ geometry_of catalog.old.geometry }
    requires countable { IsCountable geometry.limits }
    requires taken { HasTaken catalog.old.geometry next geometry.blocks (map snapshot_file catalog.old.files) catalog.old flags.old }
    requires last { last ≡ last_inode 0 (names_in (map snapshot_file catalog.old.files)) }
    ensures taken { OnOk result (HasTaken catalog.old.geometry next geometry.blocks (map snapshot_file catalog.old.files ++ raw_file file ∷ []) catalog.new flags.new) }
    ensures corrupt { IsErrOf result ReadRefusal.Corrupt → IsNext geometry next (map snapshot_file catalog.old.files) (raw_file file) → ⊥ }
{
    // Read for what is true of each catalog.
    let _geometry = catalog.geometry();
    if !can_follow(catalog, geometry, next, last, &file) || !claim(flags, file.extents.as_slice()) {
        return Err(ReadRefusal::Corrupt);
    }
    let room = u64::from(geometry.attributes) - catalog.attribute_total();
    let stub_room = geometry.stubs - catalog.stub_total();
    let parts = parts_of(alloc, geometry.limits, &mut file, room, stub_room)?;
    catalog.put(alloc, file.key, &file.name, file.size, parts)?;
    Ok(())
}

/// Whether a file can stand behind those of the catalog, what they use of the disk and what sessions keep with them aside.
#[tactic(auto, using(crate::proofs::PassingFiles::follows))]
fn can_follow(catalog: &Catalog, geometry: Geometry, next: u64, last: u64, file: &RawFile) -> bool
    requires last { last ≡ last_inode 0 (names_in (map snapshot_file catalog.now.files)) }
    requires countable { IsCountable geometry.limits }
    ensures judged { result ≡ can_follow geometry next (map snapshot_file catalog.now.files) (raw_file file.now) }
    ensures follows { OnTrue result (Follows geometry next (map snapshot_file catalog.now.files) (raw_file file.now)) }
{
    !has_name(catalog, &file.name)
        && last < file.key.ino
        && file.key.ino <= u64::from(geometry.files)
        && is_file(file, geometry, next)
}

/// Whether a file of the catalog has that name.
fn has_name(catalog: &Catalog, name: &Word) -> bool
    ensures { result ≡ is_some (named name.now (names_in (map snapshot_file catalog.now.files))) }
{
    catalog.names().find(name).is_some()
}

/// Whether what a file says of itself is lawful in a store of that geometry.
fn is_file(file: &RawFile, geometry: Geometry, next: u64) -> bool
    requires { IsCountable geometry.limits }
    ensures { result ≡ is_file geometry next (raw_file file.now) }
{
    if file.key.igen == 0 || next <= file.key.igen || geometry.limits.bytes < file.size {
        return false;
    }
    let count = ((file.size + BLOCK_BYTES - 1) / BLOCK_BYTES) as u32;
    can_name(file.name.as_slice()) && are_extents(file.extents.as_slice(), count, geometry.blocks)
}
