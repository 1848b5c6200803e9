//! The catalog of a store's files in memory.
ghost use Rattle.std.specs.Prelude.{◌≡◌, ◌↔◌, ◌++◌, ◌+◌, ◌<◌, ◌≤◌, [], length, map, false, None, Some, Err, IsSome, IsOk, IfOk, IsErrOf, OnOk};
ghost use Rattle.std.specs.Prelude.{OnErr, slice_get};
ghost use Rattle.std.specs.Option.{option_map, unwrap_or};
ghost use Rattle.hsm_types.specs.Limits.{last_generation};
ghost use Rattle.hsm_types.specs.Attributes.{bytes_of_attributes};
ghost use Rattle.hsm_types.specs.declared.dm.DmRefusal.{DmRefusal};
ghost use Rattle.hsm_types.specs.declared.keys.FileKey.{FileKey};
ghost use Rattle.hsm_types.specs.Keyed.{find_key, change_key};
ghost use Rattle.plain_model.specs.Plain.{named};
ghost use Rattle.plain_model.specs.Distinct.{Distinct};
ghost use Rattle.inode_table.specs.declared.entries.FileEntry.{FileEntry};
ghost use Rattle.inode_table.specs.Listing.{has_inode, key_at, listing};
ghost use Rattle.inode_table.specs.Table.{entry_of};
ghost use Rattle.snapshot_text.specs.Files.{geometry_of, present, CatalogFile, IsCatalogFile};
ghost use Rattle.meta_store.specs.Catalogs.{names_of, blocks_of, attribute_total, stub_total, IsCatalog};
ghost use Rattle.meta_store.specs.Records.{with_put, without_file, with_changed, key_on, after, after_all, others_of, refusal_of, refusal_of_all};
ghost use Rattle.journal_records.specs.Texts.{inode_of};
ghost use Rattle.snapshot_text.specs.FileRecords.{file_after, IsSure};
ghost use Rattle.meta_store.specs.Records.{IsAboutOne, IsEvent, CanStand, CanStandAll};
ghost use Rattle.snapshot_text.specs.Parts.{file_of, parts_of};

use crate::inode_parts::{self, slot};
use dm_attrs::DmAttrs;
use hsm_types::{FileKey, Word};
use inode_table::InodeTable;
use journal_records::{Record, Records};
use managed_regions::ManagedRegions;
use snapshot_text::{FileParts, MetaRefusal, Others, geometry_of};
use std::alloc::{AllocError, Global};
use std::marker::Model;
use stub_map::StubMap;

/// The names, sizes and block places of a store's files, and what sessions keep with them. A name costs one look-up in a map, and whether a key is
/// live a binary search. What is kept of a live file stands at its inode. The parts of a dropped file keep their memory until its inode is given again.
#[derive(Drop)]
pub struct Catalog {
    geometry: u32,
    table: InodeTable,
    /// Of inode i at i - 1.
    parts: Vec<FileParts>,
    /// What the attributes of all files count.
    attribute_total: u64,
    /// How many stub entries all files have.
    stub_total: u32,
    /// How many blocks of the disk the files use.
    used: u64,
}

impl Model for Catalog {
    ghost use Rattle.std.specs.Prelude.{◌≡◌, length};
    ghost use Rattle.meta_store.specs.Catalogs.{Catalog, blocks_of};
    ghost use Rattle.meta_store.specs.InMemory.{catalog_held, files_held, IsHeld};

    ghost Value = { Catalog };

    ghost view = { λ c. catalog_held c.geometry c.table c.parts.items };

    ghost invariant = { λ c. IsHeld c.geometry c.table c.parts.items c.attribute_total c.stub_total × (c.used ≡ length (blocks_of (files_held c.parts.items c.table.files))) };
}

impl Catalog {
    /// No files. The first that is made has that generation. It takes the memory for the parts of a new file for each inode.
    pub fn new(alloc: Global, geometry: u32, next: u64) -> Result<Catalog, AllocError>
        requires geometry { geometry ≤ 1 }
        requires first { 1 ≤ next }
        requires next { next ≤ last_generation }
        ensures { IfOk result (λ c. c ≡ record { geometry = geometry; next = next; files = [] }) }
    {
        let files = geometry_of(geometry).files;
        Ok(Catalog {
            geometry,
            table: InodeTable::new(alloc, files, next),
            parts: inode_parts::empty(alloc, files)?,
            attribute_total: 0,
            stub_total: 0,
            used: 0,
        })
    }

    /// 0 for a small store, 1 for a large one.
    pub fn geometry(&self) -> u32
        ensures geometry { result ≡ self.now.geometry }
        ensures valid { IsCatalog self.now }
    {
        self.geometry
    }

    /// The keys, names and sizes of the files.
    #[tactic(auto, using(crate::proofs::HeldCatalogs::table_held))]
    pub fn names(&self) -> &InodeTable
        ensures { result.now ≡ record { limit = (geometry_of self.now.geometry).files; next = self.now.next; files = map (λ f. entry_of f.key f.name f.size) self.now.files } }
    {
        &self.table
    }

    /// What the attributes of all files count.
    pub fn attribute_total(&self) -> u64
        ensures { result ≡ attribute_total self.now.files }
    {
        self.attribute_total
    }

    /// How many stub entries all files have.
    pub fn stub_total(&self) -> u32
        ensures { result ≡ stub_total self.now.files }
    {
        self.stub_total
    }

    /// How many blocks of the disk the files use.
    pub fn used(&self) -> u64
        ensures { result ≡ length (blocks_of self.now.files) }
    {
        self.used
    }

    /// The file at that place, from 0, in the order of inodes: its key, its name, its size and its parts.
    pub fn file(&self, index: u32) -> Option<(FileKey, &Word, u64, &FileParts)>
        ensures { option_map (λ r. file_of r.0 r.1.now r.2 r.3.now) result ≡ slice_get self.now.files index }
    {
        let (key, name, size) = self.table.file(index)?;
        Some((key, name, size, &self.parts[slot(key.ino)]))
    }

    /// How many blocks of the disk a live file uses.
    #[tactic(auto, using(crate::proofs::HeldCatalogs::part_some))]
    pub fn mapped(&self, key: FileKey) -> u64
        requires { IsSome (find_key (λ f. f.key) key self.now.files) }
        ensures { Some result ≡ option_map (λ f. length (present f.places)) (find_key (λ f. f.key) key self.now.files) }
    {
        self.parts(key).mapped()
    }

    /// The regions of a live file.
    #[tactic(auto, using(crate::proofs::HeldCatalogs::part_some))]
    pub fn regions(&self, key: FileKey) -> &ManagedRegions
        requires { IsSome (find_key (λ f. f.key) key self.now.files) }
        ensures { Some result.now ≡ option_map (λ f. f.kept.regions) (find_key (λ f. f.key) key self.now.files) }
    {
        self.parts(key).regions()
    }

    /// The attributes of a live file.
    #[tactic(auto, using(crate::proofs::HeldCatalogs::part_some))]
    pub fn attributes(&self, key: FileKey) -> &DmAttrs
        requires { IsSome (find_key (λ f. f.key) key self.now.files) }
        ensures { Some result.now ≡ option_map (λ f. f.kept.attributes) (find_key (λ f. f.key) key self.now.files) }
    {
        self.parts(key).attributes()
    }

    /// The stub entries of a live file.
    #[tactic(auto, using(crate::proofs::HeldCatalogs::part_some))]
    pub fn stubs(&self, key: FileKey) -> &StubMap
        requires { IsSome (find_key (λ f. f.key) key self.now.files) }
        ensures { Some result.now ≡ option_map (λ f. f.kept.stubs) (find_key (λ f. f.key) key self.now.files) }
    {
        self.parts(key).stubs()
    }

    /// What is kept of a live file beside its key, its name and its size. It stands at the file's inode, and is not searched for.
    pub fn parts(&self, key: FileKey) -> &FileParts
        requires { IsSome (find_key (λ f. f.key) key self.now.files) }
        ensures { Some result.now ≡ option_map parts_of (find_key (λ f. f.key) key self.now.files) }
    {
        &self.parts[slot(key.ino)]
    }

    /// Adds a file as a snapshot or a record has it. At an `Err` nothing has changed.
    #[tactic(auto, using(crate::proofs::HeldCatalogs::put_steps))]
    pub(crate) fn put(
        &mut self,
        alloc: Global,
        key: FileKey,
        name: &Word,
        size: u64,
        parts: FileParts,
    ) -> Result<(), AllocError>
        requires low { 1 ≤ key.ino }
        requires high { key.ino ≤ (geometry_of self.old.geometry).files }
        requires early { key.igen < last_generation }
        requires inode { has_inode key.ino (names_of self.old.files) ≡ false }
        requires name { named name.now (names_of self.old.files) ≡ None }
        requires lawful { IsCatalogFile (geometry_of self.old.geometry) (file_of key name.now size parts) }
        requires distinct { Distinct (present parts.places ++ blocks_of self.old.files) }
        requires room { attribute_total self.old.files + bytes_of_attributes parts.attributes ≤ (geometry_of self.old.geometry).attributes }
        requires stub_room { stub_total self.old.files + length parts.stubs ≤ (geometry_of self.old.geometry).stubs }
        ensures ok { OnOk result (self.new ≡ with_put (file_of key name.now size parts) self.old) }
        ensures err { OnErr result (self.new ≡ self.old) }
    {
        self.table.put(alloc, key, name, size)?;
        self.attribute_total += parts.attributes.bytes();
        self.stub_total += parts.stubs.len();
        self.used += u64::from(parts.places.mapped());
        inode_parts::set_at(&mut self.parts, key.ino, parts);
        Ok(())
    }

    /// Changes the files as the records of one event say: all of them, or none.
    pub(crate) fn apply_all(&mut self, alloc: Global, records: Records) -> Result<(), MetaRefusal>
        requires event { IsEvent records }
        requires stand { CanStandAll records self.old }
        ensures judged { OnOk result (refusal_of_all records self.old ≡ None) }
        ensures taken { OnOk result (self.new ≡ after_all records self.old) }
        ensures refused { (why : DmRefusal) → (result ≡ Err (MetaRefusal.Part why)) ↔ (refusal_of_all records self.old ≡ Some why) }
        ensures no_disk { IsErrOf result MetaRefusal.Disk → ⊥ }
        ensures geometry { self.new.geometry ≡ self.old.geometry }
        ensures err { OnErr result (self.new ≡ self.old) }
    {
        for record in records.into_vec() {
            self.apply(alloc, record)?;
        }
        Ok(())
    }

    /// Changes the files as a record says. At an `Err` nothing has changed. It costs the record, and the blocks that a size adds or takes away, or
    /// those of a segment that goes away.
    fn apply(&mut self, alloc: Global, change: Record) -> Result<(), MetaRefusal>
        requires { CanStand change self.old }
        ensures judged { OnOk result (refusal_of change self.old ≡ None) }
        ensures taken { OnOk result (self.new ≡ after change self.old) }
        ensures refused { (why : DmRefusal) → (result ≡ Err (MetaRefusal.Part why)) ↔ (refusal_of change self.old ≡ Some why) }
        ensures no_disk { IsErrOf result MetaRefusal.Disk → ⊥ }
        // The place of a block takes no memory, nor does an entry that goes or stands for bytes that are away.
        ensures sure { IsSure change → IsOk result }
        ensures err { OnErr result (self.new ≡ self.old) }
    {
        match change {
            Record::Make { key, name } => {
                // Read for what is true of each catalog.
                let _geometry = self.geometry;
                self.put(alloc, key, &name, 0, FileParts::new(alloc))?;
                Ok(())
            }
            Record::Drop { ino } => {
                self.drop_file(ino);
                Ok(())
            }
            change => self.change_file(alloc, change),
        }
    }

    /// Drops the file with that inode. It takes no memory.
    fn drop_file(&mut self, ino: u64)
        requires { IsSome (find_key (λ f. f.key) (key_on ino self.old) self.old.files) }
        ensures { self.new ≡ without_file (key_on ino self.old) self.old }
    {
        let (others, blocks) = self.others(ino);
        let key = self.table.key_at(ino).unwrap();
        self.attribute_total = others.attributes;
        self.stub_total = others.stubs;
        self.used = blocks;
        self.table.drop_file(key);
    }

    /// What all files but that with that inode have, and how many blocks of the disk they use.
    fn others(&self, ino: u64) -> (Others, u64)
        requires { IsSome (find_key (λ f. f.key) (key_on ino self.now) self.now.files) }
        ensures others { result.0 ≡ others_of (key_on ino self.now) self.now }
        ensures used { result.1 ≡ length (blocks_of (without_file (key_on ino self.now) self.now).files) }
    {
        let parts = &self.parts[slot(ino)];
        let others = Others {
            attributes: self.attribute_total - parts.attributes.bytes(),
            stubs: self.stub_total - parts.stubs.len(),
        };
        let blocks = self.used - u64::from(parts.places.mapped());
        (others, blocks)
    }

    /// Changes the file that a record is about.
    fn change_file(&mut self, alloc: Global, change: Record) -> Result<(), MetaRefusal>
        requires about { IsAboutOne change }
        requires stands { CanStand change self.old }
        ensures judged { OnOk result (refusal_of change self.old ≡ None) }
        ensures taken { OnOk result (self.new ≡ with_changed (key_on (inode_of change) self.old) (file_after change) self.old) }
        ensures refused { (why : DmRefusal) → (result ≡ Err (MetaRefusal.Part why)) ↔ (refusal_of change self.old ≡ Some why) }
        ensures no_disk { IsErrOf result MetaRefusal.Disk → ⊥ }
        ensures sure { IsSure change → IsOk result }
        ensures err { OnErr result (self.new ≡ self.old) }
    {
        let geometry = geometry_of(self.geometry);
        let ino = change.ino();
        let size = size_in(&change);
        let (others, blocks) = self.others(ino);
        let parts = &mut self.parts[slot(ino)];
        parts.apply(alloc, change, others, geometry)?;
        self.attribute_total = others.attributes + parts.attributes.bytes();
        self.stub_total = others.stubs + parts.stubs.len();
        self.used = blocks + u64::from(parts.places.mapped());
        resize(&mut self.table, ino, size);
        Ok(())
    }
}

/// The size that the record's file has after it, where it says one.
fn size_in(change: &Record) -> Option<u64>
    ensures { (f : CatalogFile) → (file_after change.now f).size ≡ unwrap_or result f.size }
{
    match change {
        Record::Size { size, .. } => Some(*size),
        _ => None,
    }
}

/// The file with that inode has that size, if there is one. Then it costs a binary search.
fn resize(table: &mut InodeTable, ino: u64, size: Option<u64>)
    requires { IsSome (key_at ino (listing table.old.files)) }
    ensures { (key : FileKey) (e : FileEntry) → key_at ino (listing table.old.files) ≡ Some key → find_key (λ f. f.key) key table.old.files ≡ Some e → table.new ≡ record table.old { files = change_key (λ f. f.key) key (λ f. record f { size = unwrap_or size e.size }) table.old.files } }
{
    if let Some(size) = size {
        table.set_size_at(ino, size);
    }
}
