//! A store while the records of batches change it.
ghost use Rattle.std.specs.Prelude.{◌≡◌, ◌+◌, ◌<◌, ◌≤◌, ◌↔◌, [], true, false, None, is_some, IsTrue, IfOk, OnOk};
ghost use Rattle.hsm_types.specs.Keyed.{put_key, drop_key, change_key};
ghost use Rattle.hsm_types.specs.Limits.{last_generation};
ghost use Rattle.inode_table.specs.Listing.{has_inode};
ghost use Rattle.journal_fold.specs.FoldedStores.{files_in, store_said, IsHeld};
ghost use Rattle.journal_records.specs.Texts.{inode_of};
ghost use Rattle.meta_store.specs.Batches.{changed, file_changed, key_in, Applies, IsNew};
ghost use Rattle.meta_store.specs.Records.{IsAboutOne};
ghost use Rattle.meta_store.specs.Validity.{names_in};
ghost use Rattle.plain_model.specs.Plain.{named};

use crate::files::FoldedFile;
use hsm_types::{FileKey, LAST_GENERATION, Word};
use journal_records::Record;
use std::alloc::{AllocError, Global};
use std::collections::{BTreeMap, HashMap};

/// The files of a store by inode, their names, the next generation, and the number of the last batch. It takes no walk over the files to change one,
/// to add one or to drop one.
#[derive(Drop)]
pub struct FoldedStore {
    pub number: u64,
    pub next: u64,
    pub files: BTreeMap<u64, FoldedFile>,
    pub names: HashMap<Vec<u8>, FileKey>,
}

impl FoldedStore {
    /// Changes the store as a record says, if it applies. At `false` it doesn't, or no batch with it could be valid: a generation is given that is the
    /// last, or past it. At an `Err` nothing is said of the store.
    pub fn take_record(&mut self, alloc: Global, change: Record) -> Result<bool, AllocError>
        requires { IsHeld self.old }
        ensures held { OnOk result (IsHeld self.new) }
        ensures applies { IfOk result (λ b. b ≡ true → Applies change (store_said self.old)) }
        ensures changed { IfOk result (λ b. b ≡ true → store_said self.new ≡ changed change (store_said self.old)) }
        ensures last { IfOk result (λ b. b ≡ true → self.old.next ≤ last_generation → self.new.next ≤ last_generation) }
        ensures refused { IfOk result (λ b. b ≡ false → Applies change (store_said self.old) → last_generation < (changed change (store_said self.old)).next) }
    {
        match change {
            Record::Make { key, name } => {
                if !self.can_make(key, &name) {
                    return Ok(false);
                }
                self.put(alloc, FoldedFile::empty(alloc, key, name))?;
                self.next = key.igen + 1;
                Ok(true)
            }
            Record::Drop { ino } => Ok(self.drop_file(ino)),
            change => self.change_file(change),
        }
    }

    /// Whether a file can be made with that key and that name.
    fn can_make(&self, key: FileKey, name: &Word) -> bool
        requires { IsHeld self.now }
        ensures { IsTrue result ↔ (IsNew key name.now (store_said self.now) × (key.igen < last_generation)) }
    {
        if key.igen < self.next || LAST_GENERATION <= key.igen || self.has_inode(key.ino) {
            return false;
        }
        !self.has_name(name)
    }

    fn has_inode(&self, ino: u64) -> bool
        requires { IsHeld self.now }
        ensures { result ≡ has_inode ino (names_in (files_in self.now)) }
    {
        self.files.contains_key(&ino)
    }

    fn has_name(&self, name: &Word) -> bool
        requires { IsHeld self.now }
        ensures { result ≡ is_some (named name.now (names_in (files_in self.now))) }
    {
        self.names.contains_key(name.as_slice())
    }

    /// Puts a file at its inode.
    pub(crate) fn put(&mut self, alloc: Global, file: FoldedFile) -> Result<(), AllocError>
        requires held { IsHeld self.old }
        requires inode { has_inode file.key.ino (names_in (files_in self.old)) ≡ false }
        requires name { named file.name (names_in (files_in self.old)) ≡ None }
        ensures held { OnOk result (IsHeld self.new) }
        ensures files { OnOk result (files_in self.new ≡ put_key (λ f. f.key) file (files_in self.old)) }
        ensures next { self.new.next ≡ self.old.next }
        ensures number { self.new.number ≡ self.old.number }
    {
        let key = file.key();
        let name = Vec::from_slice(alloc, file.name().as_slice())?;
        self.names.insert(name, key)?;
        self.files.insert(key.ino, file)?;
        Ok(())
    }

    /// Drops the file with that inode, if there is one.
    fn drop_file(&mut self, ino: u64) -> bool
        requires { IsHeld self.old }
        ensures held { IsHeld self.new }
        ensures there { result ≡ has_inode ino (names_in (files_in self.old)) }
        ensures files { result ≡ true → files_in self.new ≡ drop_key (λ f. f.key) (key_in ino (files_in self.old)) (files_in self.old) }
        ensures next { self.new.next ≡ self.old.next }
        ensures number { self.new.number ≡ self.old.number }
    {
        let Some(file) = self.files.remove(&ino) else {
            return false;
        };
        let _key = self.names.remove(file.name().as_slice());
        true
    }

    /// Changes the file that a record is about, if there is one.
    fn change_file(&mut self, change: Record) -> Result<bool, AllocError>
        requires held { IsHeld self.old }
        requires about { IsAboutOne change }
        ensures held { OnOk result (IsHeld self.new) }
        ensures there { IfOk result (λ b. b ≡ has_inode (inode_of change) (names_in (files_in self.old))) }
        ensures files { IfOk result (λ b. b ≡ true → files_in self.new ≡ change_key (λ f. f.key) (key_in (inode_of change) (files_in self.old)) (file_changed change) (files_in self.old)) }
        ensures next { self.new.next ≡ self.old.next }
        ensures number { self.new.number ≡ self.old.number }
    {
        let ino = change.ino();
        let Some(mut file) = self.files.remove(&ino) else {
            return Ok(false);
        };
        file.change(change)?;
        self.files.insert(ino, file)?;
        Ok(true)
    }
}
