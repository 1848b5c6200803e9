//! The table of a store's files.
ghost use Rattle.std.specs.Prelude.{◌≡◌, ◌↔◌, ◌+◌, ◌^◌, ◌<◌, ◌≤◌, [], length, None, Some, Err, false, IsSome, IfNone, IfOk, OnOk, OnErr, slice_get};
ghost use Rattle.std.specs.Option.{option_map};
ghost use Rattle.hsm_types.specs.Limits.{last_generation};
ghost use Rattle.hsm_types.specs.Keyed.{find_key, change_key, drop_key};
ghost use Rattle.hsm_types.specs.declared.keys.FileKey.{FileKey};
ghost use Rattle.hsm_types.specs.Listing.{named};
ghost use Rattle.inode_table.specs.declared.table.TableRefusal.TheVariants.{Exists, NoInodes};
ghost use Rattle.inode_table.specs.Listing.{listing, key_named, key_at, has_inode};
ghost use Rattle.inode_table.specs.Table.{entry_of, next_key, with_file, IsTable};

use crate::edits;
use crate::entries::{self, FileEntry};
use hsm_types::{FileKey, Word};
use std::alloc::{AllocError, Global};
use std::collections::HashMap;
use std::marker::Model;
use thiserror::Error;

/// Why no file was made. Nothing has changed then.
#[derive(Clone, Copy, Debug, PartialEq, Eq, Error)]
pub enum TableRefusal {
    #[error("a file has the name")]
    Exists,
    #[error("all inodes are in use")]
    NoInodes,
    #[error("no memory")]
    Memory,
}

/// The files of a store by name, inode and size. A name costs one look-up in a map, and an inode a binary search.
#[derive(Drop)]
pub struct InodeTable {
    files: u32,
    next: u64,
    entries: Vec<FileEntry>,
    keys: HashMap<Vec<u8>, FileKey>,
}

impl Model for InodeTable {
    ghost use Rattle.inode_table.specs.Listing.{listing};
    ghost use Rattle.inode_table.specs.Table.{Table, IsTable};
    ghost use Rattle.inode_table.specs.Index.{Indexes};

    ghost Value = { Table };

    ghost view = { λ t. record { limit = t.files; next = t.next; files = t.entries.items } };

    ghost invariant = { λ t. IsTable t.files t.next (listing t.entries.items) × Indexes t.keys.entries (listing t.entries.items) };
}

impl InodeTable {
    /// No files. There can be that many, with inodes up to that number, and the first that is made has that generation. It takes no memory.
    pub fn new(alloc: Global, files: u32, next: u64) -> InodeTable
        ensures { result ≡ record { limit = files; next = next; files = [] } }
    {
        InodeTable {
            files,
            next,
            entries: Vec::new(alloc),
            keys: HashMap::new(alloc),
        }
    }

    /// The next generation.
    pub fn next(&self) -> u64
        ensures { result ≡ self.now.next }
    {
        self.next
    }

    /// How many files there are.
    pub fn len(&self) -> u32
        ensures len { result ≡ length self.now.files }
        ensures limit { result ≤ self.now.limit }
        ensures table { IsTable self.now.limit self.now.next (listing self.now.files) }
    {
        // Read for its range, which bounds the number of files.
        let _files = self.files;
        self.entries.len() as u32
    }

    /// The file at that place, from 0, in the order of inodes: its key, its name and its size.
    pub fn file(&self, index: u32) -> Option<(FileKey, &Word, u64)>
        ensures { option_map (λ r. entry_of r.0 r.1.now r.2) result ≡ slice_get self.now.files index }
    {
        match self.entries.get(index as usize) {
            Some(entry) => Some((entry.key, &entry.name, entry.size)),
            None => None,
        }
    }

    /// The key of the file with that name.
    pub fn find(&self, name: &Word) -> Option<FileKey>
        ensures { result ≡ key_named name.now (listing self.now.files) }
    {
        edits::find(&self.keys, name)
    }

    /// The key of the file with that inode. It costs a binary search.
    pub fn key_at(&self, ino: u64) -> Option<FileKey>
        ensures { result ≡ key_at ino (listing self.now.files) }
    {
        entries::key_at(self.entries.as_slice(), ino)
    }

    /// The key that the next file made gets: the lowest free inode, and the next generation. Where no inode is free, its inode is past the last.
    pub fn next_key(&self) -> FileKey
        ensures { result ≡ next_key self.now }
    {
        // Read for its range, which bounds the number of files.
        let _files = self.files;
        FileKey {
            ino: entries::lowest_free(self.entries.as_slice()),
            igen: self.next,
        }
    }

    /// Makes an empty file, with the lowest free inode and the next generation.
    pub fn make(&mut self, alloc: Global, name: &Word) -> Result<FileKey, TableRefusal>
        requires { self.old.next + 1 < 2 ^ 64 }
        ensures key { IfOk result (λ key. key ≡ next_key self.old) }
        ensures made { OnOk result (self.new ≡ with_file (entry_of (next_key self.old) name.now 0) self.old) }
        ensures exists { (result ≡ Err Exists) ↔ IsSome (named name.now (listing self.old.files)) }
        ensures no_inodes { (result ≡ Err NoInodes) ↔ ((named name.now (listing self.old.files) ≡ None) × (length self.old.files ≡ self.old.limit)) }
        ensures err { OnErr result (self.new ≡ self.old) }
    {
        if self.find(name).is_some() {
            return Err(TableRefusal::Exists);
        }
        if self.len() == self.files {
            return Err(TableRefusal::NoInodes);
        }
        let key = self.next_key();
        match self.add(alloc, key, name, 0) {
            Ok(()) => Ok(key),
            Err(_) => Err(TableRefusal::Memory),
        }
    }

    /// Puts a file as a snapshot or a journal has it. At an `Err` nothing has changed.
    pub fn put(
        &mut self,
        alloc: Global,
        key: FileKey,
        name: &Word,
        size: u64,
    ) -> Result<(), AllocError>
        requires low { 1 ≤ key.ino }
        requires high { key.ino ≤ self.old.limit }
        requires inode { has_inode key.ino (listing self.old.files) ≡ false }
        requires name { named name.now (listing self.old.files) ≡ None }
        requires generation { key.igen < last_generation }
        ensures ok { OnOk result (self.new ≡ with_file (entry_of key name.now size) self.old) }
        ensures err { OnErr result (self.new ≡ self.old) }
    {
        self.add(alloc, key, name, size)
    }

    fn add(&mut self, alloc: Global, key: FileKey, name: &Word, size: u64) -> Result<(), AllocError>
        requires low { 1 ≤ key.ino }
        requires high { key.ino ≤ self.old.limit }
        requires inode { has_inode key.ino (listing self.old.files) ≡ false }
        requires name { named name.now (listing self.old.files) ≡ None }
        requires generation { key.igen + 1 < 2 ^ 64 }
        ensures ok { OnOk result (self.new ≡ with_file (entry_of key name.now size) self.old) }
        ensures err { OnErr result (self.new ≡ self.old) }
    {
        let name = Word::from(Vec::from_slice(alloc, name.as_slice())?);
        let entry = FileEntry { key, name, size };
        edits::add(alloc, &mut self.entries, &mut self.keys, entry)?;
        self.next = self.next.max(key.igen + 1);
        Ok(())
    }

    /// Drops a live file, and gives its name. Where the key isn't live, nothing changes.
    pub fn drop_file(&mut self, key: FileKey) -> Option<Word>
        ensures name { result ≡ option_map (λ f. f.name) (find_key (λ f. f.key) key self.old.files) }
        ensures rest { self.new ≡ record self.old { files = drop_key (λ f. f.key) key self.old.files } }
        ensures none { IfNone result (self.new ≡ self.old) }
    {
        edits::take_out(&mut self.entries, &mut self.keys, key)
    }

    /// The size of a live file.
    pub fn size(&self, key: FileKey) -> Option<u64>
        ensures { result ≡ option_map (λ f. f.size) (find_key (λ f. f.key) key self.now.files) }
    {
        entries::size(self.entries.as_slice(), key)
    }

    /// Sets the size of a live file.
    pub fn set_size(&mut self, key: FileKey, size: u64)
        requires { IsSome (find_key (λ f. f.key) key self.old.files) }
        ensures { self.new ≡ record self.old { files = change_key (λ f. f.key) key (λ f. record f { size = size }) self.old.files } }
    {
        entries::set_size(&mut self.entries, key, size);
    }

    /// Sets the size of the file with that inode. It costs a binary search.
    pub fn set_size_at(&mut self, ino: u64, size: u64)
        requires { IsSome (key_at ino (listing self.old.files)) }
        ensures { (key : FileKey) → key_at ino (listing self.old.files) ≡ Some key → self.new ≡ record self.old { files = change_key (λ f. f.key) key (λ f. record f { size = size }) self.old.files } }
    {
        entries::set_size_at(&mut self.entries, ino, size);
    }
}
