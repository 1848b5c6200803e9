//! A store of files on its disk.
ghost use Rattle.std.specs.Prelude.{◌≡◌, false, List, ℕ, length, ◌+◌, ◌*◌, ◌<◌, ◌≤◌, IfOk, IfErr, OnOk, IsErrOf, IsSome};
ghost use Rattle.disk_model.specs.Calls.{Counts};
ghost use Rattle.disk_model.specs.Images.{Alike};
ghost use Rattle.disk_model.specs.Moments.{MayBe, Keeps, Same, Tells};
ghost use Rattle.commit_slots.specs.Images.{IsStore};
ghost use Rattle.hsm_types.specs.Keyed.{find_key};
ghost use Rattle.hsm_types.specs.Limits.{segment_bytes, IsCountable};
ghost use Rattle.hsm_types.specs.Stubs.{offline_at, print_of};
ghost use Rattle.plain_model.specs.Plain.{read_at, segment as segment_of};
ghost use Rattle.plain_model.specs.Seen.{IsOfSeen};
ghost use Rattle.plain_model.specs.State.{bytes_of, used};
ghost use Rattle.block_space.specs.Space.{free};
ghost use Rattle.file_body.specs.HeldBodies.{is_away};
ghost use Rattle.plain_model.specs.Services.{kept_of, other_attributes, other_stubs};
ghost use Rattle.snapshot_text.specs.Files.{geometry_of};
ghost use Rattle.meta_store.specs.Images.{IsCorruptAt};
ghost use Rattle.meta_store.specs.Meta.{IsMeta};
ghost use Rattle.meta_store.specs.Records.{key_on, kept_at, refusal_of};
ghost use Rattle.journal_records.specs.Texts.{inode_of};
ghost use Rattle.snapshot_text.specs.FileRecords.{part_refusal};
ghost use Rattle.journal_records.specs.declared.records.Record.{Record};
ghost use Rattle.file_store.specs.Effects.{HasInode};
ghost use Rattle.file_store.specs.Stores.{superblock_of, IsLawful, IsDurable, Proceeds, Shows};
ghost use Rattle.file_store.specs.Changes.{Ends};
ghost use Rattle.file_store.specs.Looks.{Looks};

use crate::loading::slot;
use crate::opening::read_in;
use crate::refusals::is_disk;
use block_space::BlockSpace;
use disk_model::{Disk, OpenRefusal};
use file_body::Body;
use hsm_types::{Bytes, FILE_BYTES, FileKey, Fingerprint, LAST_NUMBER, Superblock};
use meta_store::MetaStore;
use snapshot_text::{MetaRefusal, geometry_of};
use std::alloc::Global;
use std::marker::Model;
use std::snapshot::Snapshot;

/// The files of a store, and the disk that they are kept on: what is kept of them beside their bytes, and their bodies in memory.
#[derive(Drop)]
pub struct FileStore<D: Disk> {
    pub(crate) disk: D,
    pub(crate) meta: MetaStore,
    /// Of inode i at i - 1.
    pub(crate) bodies: Vec<Body>,
    /// As they were made durable.
    pub(crate) durable: Snapshot<Vec<Body>>,
    pub(crate) space: BlockSpace,
    pub(crate) failed: bool,
}

impl<D: Disk> Model for FileStore<D> {
    ghost use Rattle.file_store.specs.Bodies.{held_with};
    ghost use Rattle.file_store.specs.HeldFiles.{IsHeldFiles};
    ghost use Rattle.file_store.specs.Stores.{Store, IsSound};

    ghost Value = { Store D };

    ghost view = { λ s. record { disk = s.disk; meta = s.meta; held = held_with s.bodies.items s.meta.current; durable = held_with s.durable.value.items s.meta.durable; space = s.space; failed = s.failed } };

    ghost invariant = { λ s. IsHeldFiles s.bodies.items s.meta × IsSound D.Disk (record { disk = s.disk; meta = s.meta; held = held_with s.bodies.items s.meta.current; durable = held_with s.durable.value.items s.meta.durable; space = s.space; failed = s.failed }) };
}

impl<D: Disk> FileStore<D> {
    /// Opens what a crash may have left on the disk, beginning with a sync. All bodies are read. A refusal hands the disk back.
    pub fn open(alloc: Global, mut disk: D) -> Result<FileStore<D>, (OpenRefusal, D)>
        // Nothing changes.
        ensures opening { IfOk result (λ s. Keeps D.Disk disk s.disk Same × Alike (D.gives disk) (D.gives s.disk)) }
        ensures refused { IfErr result (λ e. Keeps D.Disk disk e.1 Same) }

        // Ok: what it holds is what recovery finds from now on.
        ensures found { IfOk result (λ s. (s.held ≡ s.durable) × (s.failed ≡ false)) }
        ensures durable { IfOk result (λ s. (c : List ℕ) → MayBe D.Disk s.disk c → IsDurable s c) }
        ensures lawful { IfOk result (λ s. IsLawful (geometry_of s.meta.durable.geometry).files s.held) }
        ensures quiet { IfOk result (λ s. D.fault_count s.disk ≡ D.fault_count disk) }

        // Why it wasn't opened.
        ensures not_store { IfErr result (λ e. e.0 ≡ OpenRefusal.NotStore → (c : List ℕ) → D.gives disk c → (geometry fsid : ℕ) → IsStore geometry fsid c → ⊥) }
        ensures corrupt { IfErr result (λ e. (place : ℕ) → e.0 ≡ OpenRefusal.Corrupt place → (c : List ℕ) → D.gives disk c → IsCorruptAt place c) }
        ensures faults { IfErr result (λ e. Counts (e.0 ≡ OpenRefusal.Disk) (D.fault_count disk) (D.fault_count e.1)) }
    {
        match read_in(alloc, &mut disk) {
            Ok((meta, bodies, space)) => Ok(FileStore {
                disk,
                meta,
                durable: Snapshot::of(&bodies),
                bodies,
                space,
                failed: false,
            }),
            Err(refusal) => Err((refusal, disk)),
        }
    }

    /// Makes all durable that is held, under that number. Past the greatest number that a snapshot can hold it answers `Memory`.
    pub fn sync(&mut self, alloc: Global, number: u64) -> Result<(), MetaRefusal>
        requires working { self.old.failed ≡ false }
        requires rises { self.old.meta.number ≤ number }
        ensures held { self.new.held ≡ self.old.held }
        ensures current { self.new.meta.current ≡ self.old.meta.current }
        ensures done { OnOk result ((self.new.durable ≡ self.old.held) × (self.new.meta.number ≡ number)) }
        ensures durable { OnOk result ((c : List ℕ) → MayBe D.Disk self.new.disk c → IsDurable self.new c) }
        ensures ends { Ends D.Disk self.old number None result self.new }
        ensures room { OnOk result (length (free self.new.space) + used self.new.held.files ≡ (geometry_of self.new.meta.durable.geometry).blocks) }
        ensures memory { IsErrOf result MetaRefusal.Memory → self.new ≡ self.old }
    {
        // Asked for what is true of the disk.
        let _failed = self.has_failed();
        if number > LAST_NUMBER {
            return Err(MetaRefusal::Memory);
        }
        match self.meta.commit(alloc, &mut self.disk, number) {
            Ok(()) => {
                self.durable = Snapshot::of(&self.bodies);
                self.space.committed();
                Ok(())
            }
            Err(refusal) => {
                self.failed = is_disk(refusal);
                Err(refusal)
            }
        }
    }

    /// What is kept of the files beside their bytes.
    #[tactic(auto, using(crate::proofs::ShownFiles::lawful_with, crate::proofs::ShownFiles::shown_with))]
    pub fn meta(&self) -> &MetaStore
        ensures meta { result.now ≡ self.now.meta }
        ensures lawful { IsMeta self.now.meta }
        ensures shows { Shows self.now.meta.current self.now.held }
        ensures files { IsLawful (geometry_of self.now.meta.current.geometry).files self.now.held }
    {
        &self.meta
    }

    /// How many bytes a live file has.
    pub fn size(&self, key: FileKey) -> u64
        requires { IsSome (find_key (λ f. f.key) key self.now.held.files) }
        ensures size { result ≡ length (bytes_of key self.now.held.files) }
        ensures limit { result ≤ (superblock_of self.now).geometry.limits.bytes }
        ensures countable { result ≤ FILE_BYTES }
    {
        self.body(key).len()
    }

    /// At most `len` bytes of a live file from the offset on, as they are seen: just as many, and where the disk tells what it holds, just these. It costs
    /// these bytes and the segments that they meet.
    pub fn read(
        &mut self,
        alloc: Global,
        key: FileKey,
        offset: u64,
        len: u64,
    ) -> Result<Bytes, MetaRefusal>
        requires working { self.old.failed ≡ false }
        requires live { IsSome (find_key (λ f. f.key) key self.old.held.files) }
        ensures bytes { IfOk result (λ bytes. IsOfSeen (Tells D.Disk self.new.disk) self.old.held (λ seen. bytes ≡ read_at offset len (bytes_of key seen.files))) }
        ensures looks { Looks D.Disk self.old result self.new }
    {
        // Asked for what is true of the disk.
        let _failed = self.has_failed();
        Ok(self.body(key).read(alloc, offset, len)?)
    }

    /// The fingerprint of the bytes of a segment of a live file that isn't offline, as they are seen. They are read once, where they are.
    #[tactic(auto, using(crate::proofs::ShownFiles::segment_short))]
    pub fn digest_segment(&mut self, key: FileKey, segment: u32) -> Result<Fingerprint, MetaRefusal>
        requires working { self.old.failed ≡ false }
        requires live { IsSome (find_key (λ f. f.key) key self.old.held.files) }
        requires start { segment_bytes * segment < length (bytes_of key self.old.held.files) }
        requires here { offline_at (kept_of key self.old.held.files).stubs segment ≡ false }
        ensures print { IfOk result (λ print. IsOfSeen (Tells D.Disk self.new.disk) self.old.held (λ seen. print ≡ print_of (segment_of segment (bytes_of key seen.files)))) }
        ensures looks { Looks D.Disk self.old result self.new }
    {
        // Asked for what is true of the disk.
        let _failed = self.has_failed();
        Ok(Fingerprint::of(self.body(key).segment(segment).unwrap()))
    }

    /// The body of a live file.
    fn body(&self, key: FileKey) -> &Body
        requires { IsSome (find_key (λ f. f.key) key self.now.held.files) }
        ensures bytes { result.now.bytes ≡ bytes_of key self.now.held.files }
        ensures limit { length (bytes_of key self.now.held.files) ≤ (superblock_of self.now).geometry.limits.bytes }
        ensures here { (j : ℕ) → is_away result.now j ≡ offline_at (kept_of key self.now.held.files).stubs j }
    {
        &self.bodies[slot(key.ino)]
    }

    /// The inode of a live file. The catalog finds the file by it.
    pub(crate) fn inode(&self, key: FileKey) -> u64
        requires { IsSome (find_key (λ f. f.key) key self.now.held.files) }
        ensures inode { result ≡ key.ino }
        ensures key { key_on result self.now.meta.current ≡ key }
        ensures stands { HasInode result self.now.meta.current }
        ensures kept { kept_of key self.now.held.files ≡ kept_at key self.now.meta.current }
        ensures refusal { (r : Record) → inode_of r ≡ key.ino → refusal_of r self.now.meta.current ≡ part_refusal r (record { attributes = other_attributes key self.now.held.files; stubs = other_stubs key self.now.held.files }) (superblock_of self.now).geometry (kept_of key self.now.held.files) }
    {
        // Read for what is true of it.
        let _meta = &self.meta;
        key.ino
    }

    /// How the store was formatted. No more blocks are mapped than it has, and the code can count what its format lets a file have.
    #[tactic(auto, using(crate::proofs::FilesBy::used_few, meta_store::proofs::SnapshotFits::limits_countable))]
    pub fn superblock(&self) -> Superblock
        ensures superblock { result ≡ superblock_of self.now }
        ensures mapped { used self.now.held.files ≤ (superblock_of self.now).geometry.blocks }
        ensures countable { IsCountable (superblock_of self.now).geometry.limits }
    {
        Superblock {
            geometry: geometry_of(self.meta.catalog().geometry()),
            fsid: self.meta.fsid(),
        }
    }

    /// Whether a call of the disk has failed. As long as none has, nothing becomes of the disk between calls.
    #[tactic(auto, using(crate::proofs::Durable::sound_idle))]
    pub fn has_failed(&self) -> bool
        ensures failed { result ≡ self.now.failed }
        ensures idle { self.now.failed ≡ false → (n : ℕ) → Proceeds D.Disk self.now n self.now }
    {
        self.failed
    }

    /// Ends with the disk. What wasn't made durable is lost.
    #[tactic(auto, using(crate::proofs::Durable::durable_found))]
    pub fn close(self) -> D
        ensures disk { result ≡ self.disk }
        ensures durable { self.failed ≡ false → (c : List ℕ) → MayBe D.Disk self.disk c → IsDurable self c }
    {
        self.disk
    }
}
