//! What changes the files of a store: each event is records, blocks that they take and free, and bytes.
ghost use Rattle.std.specs.Prelude.{◌≡◌, ◌≢◌, ◌+◌, ◌*◌, ◌<◌, ◌≤◌, [], ◌∷◌, min, true, false, None, Some, Err, length, OnOk, IfOk, IfSome, IsErrOf, IsSome};
ghost use Rattle.disk_model.specs.Moments.{Tells};
ghost use Rattle.hsm_types.specs.Limits.{segment_bytes, access_bytes, last_volume};
ghost use Rattle.hsm_types.specs.Names.{is_name};
ghost use Rattle.hsm_types.specs.Regions.{regions_refusal};
ghost use Rattle.hsm_types.specs.Attributes.{setting_refusal, removal_refusal};
ghost use Rattle.hsm_types.specs.Keyed.{find_key};
ghost use Rattle.hsm_types.specs.Refusals.{first_refusal};
ghost use Rattle.hsm_types.specs.Segments.{segments_in};
ghost use Rattle.hsm_types.specs.Stubs.{print_of, stub_at, offline_at, uncovered, too_many_stubs, any_unpunched, entry_place, entry_print};
ghost use Rattle.plain_model.specs.Effects.{Makes, Drops, Writes, Resizes, Manages, Attaches, Detaches, Seals, Punches, Restores};
ghost use Rattle.plain_model.specs.Plain.{named, segment as segment_of};
ghost use Rattle.plain_model.specs.Seen.{IsOfSeen};
ghost use Rattle.plain_model.specs.Sound.{IsSound};
ghost use Rattle.plain_model.specs.Blocks.{touched};
ghost use Rattle.plain_model.specs.State.{names_of, file_at, bytes_of, next_key, affected_held, used};
ghost use Rattle.plain_model.specs.Services.{kept_of, other_attributes, other_stubs};
ghost use Rattle.snapshot_text.specs.Files.{geometry_of};
ghost use Rattle.file_store.specs.Stores.{superblock_of};
ghost use Rattle.file_store.specs.Changes.{Ends, Changes};

use crate::punches;
use crate::rewrites::Rewrite;
use crate::store::FileStore;
use disk_model::Disk;
use hsm_types::{
    AttrName, Bytes, FileKey, LAST_GENERATION, Regions, Stub, StubEntry, Verified, Word,
    segments_in,
};
use journal_records::Record;
use snapshot_text::MetaRefusal;
use std::alloc::Global;

impl<D: Disk> FileStore<D> {
    /// Makes an empty file with the lowest free inode and the next generation. Past the greatest generation it answers `Memory`.
    pub fn make(&mut self, alloc: Global, name: &Word, number: u64) -> Result<FileKey, MetaRefusal>
        requires working { self.old.failed ≡ false }
        requires rises { self.old.meta.number ≤ number }
        requires lawful { is_name name.now ≡ true }
        requires free { named name.now (names_of self.old.held.files) ≡ None }
        requires left { length self.old.held.files ≢ (geometry_of self.old.meta.durable.geometry).files }
        ensures key { IfOk result (λ key. key ≡ next_key self.old.held) }
        ensures held { OnOk result (self.new.held ≡ record { files = affected_held (Makes name.now) (next_key self.old.held) self.old.held.files; next = self.old.held.next + 1 }) }
        ensures ends { Ends D.Disk self.old number None result self.new }
        ensures memory { IsErrOf result MetaRefusal.Memory → self.new ≡ self.old }
    {
        // Asked for what is true of the disk.
        let _failed = self.has_failed();
        let key = self.meta.catalog().names().next_key();
        if key.igen >= LAST_GENERATION {
            return Err(MetaRefusal::Memory);
        }
        let name = name.clone()?;
        self.record(alloc, key, Record::Make { key, name }, number)?;
        Ok(key)
    }

    /// Removes a live file.
    pub fn remove(&mut self, alloc: Global, key: FileKey, number: u64) -> Result<(), MetaRefusal>
        requires working { self.old.failed ≡ false }
        requires rises { self.old.meta.number ≤ number }
        requires live { IsSome (find_key (λ f. f.key) key self.old.held.files) }
        ensures changed { Changes D.Disk self.old number key Drops None result self.new }
    {
        let ino = self.inode(key);
        self.record(alloc, key, Record::Drop { ino }, number)
    }

    /// Writes the bytes at the offset, no more than one access may bring. Zeros fill what lies between the old end and the offset.
    pub fn write(
        &mut self,
        alloc: Global,
        key: FileKey,
        offset: u64,
        bytes: &[u8],
        number: u64,
    ) -> Result<(), MetaRefusal>
        requires working { self.old.failed ≡ false }
        requires rises { self.old.meta.number ≤ number }
        requires live { IsSome (find_key (λ f. f.key) key self.old.held.files) }
        requires some { 1 ≤ length bytes.now }
        requires few { length bytes.now ≤ access_bytes }
        requires end { offset + length bytes.now ≤ (geometry_of self.old.meta.durable.geometry).limits.bytes }
        requires here { IsSound (Writes offset bytes.now) (file_at key self.old.held.files) }
        requires room { length (touched (Writes offset bytes.now) (length (bytes_of key self.old.held.files))) + used self.old.held.files ≤ (geometry_of self.old.meta.durable.geometry).blocks }
        ensures changed { Changes D.Disk self.old number key (Writes offset bytes.now) None result self.new }
    {
        let change = Rewrite::Write { offset, bytes };
        self.make_room(alloc, key, change, number)?;
        self.rewrite(alloc, key, change, number)
    }

    /// Cuts the body to that size, or lengthens it by zeros.
    pub fn truncate(
        &mut self,
        alloc: Global,
        key: FileKey,
        size: u64,
        number: u64,
    ) -> Result<(), MetaRefusal>
        requires working { self.old.failed ≡ false }
        requires rises { self.old.meta.number ≤ number }
        requires live { IsSome (find_key (λ f. f.key) key self.old.held.files) }
        requires end { size ≤ (geometry_of self.old.meta.durable.geometry).limits.bytes }
        requires here { IsSound (Resizes size) (file_at key self.old.held.files) }
        requires room { length (touched (Resizes size) (length (bytes_of key self.old.held.files))) + used self.old.held.files ≤ (geometry_of self.old.meta.durable.geometry).blocks }
        ensures changed { Changes D.Disk self.old number key (Resizes size) None result self.new }
    {
        let change = Rewrite::Resize { size };
        self.make_room(alloc, key, change, number)?;
        self.rewrite(alloc, key, change, number)
    }

    /// Gives a live file these regions, in the place of those that it has, unless they leave a segment that is offline uncovered.
    pub fn set_regions(
        &mut self,
        alloc: Global,
        key: FileKey,
        regions: Regions,
        number: u64,
    ) -> Result<(), MetaRefusal>
        requires working { self.old.failed ≡ false }
        requires rises { self.old.meta.number ≤ number }
        requires live { IsSome (find_key (λ f. f.key) key self.old.held.files) }
        ensures changed { Changes D.Disk self.old number key (Manages regions) (first_refusal (regions_refusal (superblock_of self.old).geometry.limits regions ∷ uncovered regions (kept_of key self.old.held.files).stubs ∷ [])) result self.new }
        ensures memory { IsErrOf result MetaRefusal.Memory → self.new ≡ self.old }
    {
        let ino = self.inode(key);
        self.record(alloc, key, Record::Regions { ino, regions }, number)
    }

    /// Gives an attribute of a live file a value, in the place of an older one.
    pub fn set_attr(
        &mut self,
        alloc: Global,
        key: FileKey,
        name: AttrName,
        value: Bytes,
        number: u64,
    ) -> Result<(), MetaRefusal>
        requires working { self.old.failed ≡ false }
        requires rises { self.old.meta.number ≤ number }
        requires live { IsSome (find_key (λ f. f.key) key self.old.held.files) }
        ensures changed { Changes D.Disk self.old number key (Attaches name value) (setting_refusal name value (other_attributes key self.old.held.files) (superblock_of self.old).geometry.attributes (kept_of key self.old.held.files).attributes) result self.new }
        ensures memory { IsErrOf result MetaRefusal.Memory → self.new ≡ self.old }
    {
        let ino = self.inode(key);
        // Read for the eight bytes of each name.
        let _len = name.0.len();
        self.record(alloc, key, Record::SetAttr { ino, name, value }, number)
    }

    /// Takes an attribute of a live file away.
    pub fn drop_attr(
        &mut self,
        alloc: Global,
        key: FileKey,
        name: AttrName,
        number: u64,
    ) -> Result<(), MetaRefusal>
        requires working { self.old.failed ≡ false }
        requires rises { self.old.meta.number ≤ number }
        requires live { IsSome (find_key (λ f. f.key) key self.old.held.files) }
        ensures changed { Changes D.Disk self.old number key (Detaches name) (removal_refusal name (kept_of key self.old.held.files).attributes) result self.new }
        ensures memory { IsErrOf result MetaRefusal.Memory → self.new ≡ self.old }
    {
        let ino = self.inode(key);
        // Read for the eight bytes of each name.
        let _len = name.0.len();
        self.record(alloc, key, Record::DropAttr { ino, name }, number)
    }

    /// Seals a segment of a live file with that entry, in the place of an older one. The entry has the fingerprint of its bytes as they are seen.
    pub fn seal(
        &mut self,
        alloc: Global,
        key: FileKey,
        segment: u32,
        entry: StubEntry,
        number: u64,
    ) -> Result<(), MetaRefusal>
        requires working { self.old.failed ≡ false }
        requires rises { self.old.meta.number ≤ number }
        requires live { IsSome (find_key (λ f. f.key) key self.old.held.files) }
        requires start { segment_bytes * segment < length (bytes_of key self.old.held.files) }
        requires volume { (entry_place entry).volume ≤ last_volume }
        requires here { offline_at (kept_of key self.old.held.files).stubs segment ≡ false }
        requires print { IsOfSeen (Tells D.Disk self.old.disk) self.old.held (λ seen. entry_print entry ≡ print_of (segment_of segment (bytes_of key seen.files))) }
        ensures changed { Changes D.Disk self.old number key (Seals segment entry) (too_many_stubs segment (other_stubs key self.old.held.files) (superblock_of self.old).geometry.stubs (kept_of key self.old.held.files).stubs) result self.new }
        ensures memory { IsErrOf result MetaRefusal.Memory → self.new ≡ self.old }
    {
        // Read for what is true of them.
        let (_meta, _len) = (&self.meta, digest_len(entry));
        let ino = self.inode(key);
        let stub = Some(Stub {
            entry,
            offline: false,
        });
        self.record(alloc, key, Record::Stub { ino, segment, stub }, number)
    }

    /// Gives up the bytes of the segments of a live file from the first up to the second, as far as it has them: their entries stand for them. It
    /// costs the segments, and no byte.
    pub fn punch(
        &mut self,
        alloc: Global,
        key: FileKey,
        from: u32,
        to: u32,
        number: u64,
    ) -> Result<(), MetaRefusal>
        requires working { self.old.failed ≡ false }
        requires rises { self.old.meta.number ≤ number }
        requires live { IsSome (find_key (λ f. f.key) key self.old.held.files) }
        requires start { segment_bytes * from < length (bytes_of key self.old.held.files) }
        ensures changed { Changes D.Disk self.old number key (Punches from to) (any_unpunched (kept_of key self.old.held.files).regions (kept_of key self.old.held.files).stubs from (min to (segments_in (length (bytes_of key self.old.held.files))))) result self.new }
    {
        let last = to.min(segments_in(self.size(key)));
        let end = last.max(from);
        // Asked for what is true of the disk, and of what is kept with the file.
        let (_failed, _ino) = (self.has_failed(), self.inode(key));
        let punch = punches::plan(alloc, self.meta.catalog(), key, from, end)?;
        self.let_go(alloc, key, from, end, punch, number)
    }

    /// Brings the bytes of a segment of a live file back. The segment is sealed then.
    pub fn restore(
        &mut self,
        alloc: Global,
        key: FileKey,
        segment: u32,
        bytes: &Verified,
        number: u64,
    ) -> Result<(), MetaRefusal>
        requires working { self.old.failed ≡ false }
        requires rises { self.old.meta.number ≤ number }
        requires live { IsSome (find_key (λ f. f.key) key self.old.held.files) }
        requires start { segment_bytes * segment < length (bytes_of key self.old.held.files) }
        requires offline { offline_at (kept_of key self.old.held.files).stubs segment ≡ true }
        requires print { IfSome (stub_at segment (kept_of key self.old.held.files).stubs) (λ stub. entry_print stub.entry ≡ print_of bytes.now) }
        requires room { length (touched (Restores segment bytes.now) (length (bytes_of key self.old.held.files))) + used self.old.held.files ≤ (geometry_of self.old.meta.durable.geometry).blocks }
        ensures changed { Changes D.Disk self.old number key (Restores segment bytes.now) None result self.new }
    {
        // Read for what is true of it.
        let _meta = &self.meta;
        let bytes = bytes.as_slice();
        let change = Rewrite::Restore { segment, bytes };
        self.make_room(alloc, key, change, number)?;
        self.rewrite(alloc, key, change, number)
    }
}

/// How many bytes the digest of an entry has.
fn digest_len(entry: StubEntry) -> usize
    ensures bytes { result ≡ length (entry_print entry).digest.0 }
    ensures whole { result ≡ 32 }
{
    entry.print().digest.0.len()
}
