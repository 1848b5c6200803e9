//! Batches taken one after the other.
ghost use Rattle.std.specs.Prelude.{◌≡◌, ◌<◌, ◌≤◌, ◌++◌, ◌∷◌, [], List, ℕ, true, false, Some, None, IfOk, OnOk};
ghost use Rattle.hsm_types.specs.Limits.{last_generation, last_number};
ghost use Rattle.journal_fold.specs.Folds.{LeadsTo, LeadsNowhere, Folds, FailsAt};
ghost use Rattle.journal_fold.specs.FoldedStores.{store_said};
ghost use Rattle.journal_fold.specs.Open.{is_touched, IsOpen, AreLawfulTogether, IsFold, fold_said};
ghost use Rattle.meta_store.specs.Batches.{changed_all, AllApply};

use crate::judging::is_alone;
use crate::stores::FoldedStore;
use crate::uses::Uses;
use hsm_types::LAST_NUMBER;
use journal_records::{RecordRefusal, Records, read_all};
use meta_journal::Batch;
use snapshot_text::geometry_of;
use std::alloc::{AllocError, Global};
use std::collections::{BTreeMap, HashMap};

/// A store behind the batches that were taken so far.
#[derive(Drop)]
pub struct Fold {
    geometry: u32,
    store: FoldedStore,
    uses: Uses,
}

impl Fold {
    /// A store without files, of that geometry, with that number and that next generation.
    pub fn empty(alloc: Global, geometry: u32, number: u64, next: u64) -> Result<Fold, AllocError>
        requires known { geometry ≤ 1 }
        requires number { number ≤ last_number }
        requires first { 1 ≤ next }
        requires next { next ≤ last_generation }
        ensures fold { IfOk result IsFold }
        ensures geometry { IfOk result (λ f. f.geometry ≡ geometry) }
        ensures said { IfOk result (λ f. fold_said f ≡ record { number = number; next = next; files = [] }) }
    {
        Ok(Fold {
            geometry,
            store: FoldedStore {
                number,
                next,
                files: BTreeMap::new(alloc),
                names: HashMap::new(alloc),
            },
            uses: Uses {
                flags: vec![in alloc; false; geometry_of(geometry).blocks as usize]?,
                attributes: 0,
                stubs: 0,
            },
        })
    }

    /// Takes batches one after the other, and tells the place of the first that isn't valid where it stands. At an `Err` nothing is said of the store.
    pub fn take_all(&mut self, alloc: Global, batches: &[Batch]) -> Result<Option<u64>, AllocError>
        requires { IsFold self.old }
        ensures folds { IfOk result (λ r. r ≡ None → IsFold self.new × Folds self.old.geometry (fold_said self.old) batches.now (fold_said self.new)) }
        ensures fails { IfOk result (λ r. (place : ℕ) → r ≡ Some place → FailsAt self.old.geometry (fold_said self.old) batches.now place) }
        ensures geometry { self.new.geometry ≡ self.old.geometry }
    {
        for batch in batches {
            if !self.take(alloc, batch)? {
                return Ok(Some(batch.place));
            }
        }
        Ok(None)
    }

    /// Takes a batch, if it is valid behind the store. At `false` it isn't, and then, as at an `Err`, nothing is said of the store.
    pub fn take(&mut self, alloc: Global, batch: &Batch) -> Result<bool, AllocError>
        requires { IsFold self.old }
        ensures held { IfOk result (λ b. b ≡ true → IsFold self.new) }
        ensures leads { IfOk result (λ b. b ≡ true → LeadsTo self.old.geometry (fold_said self.old) batch.now (fold_said self.new)) }
        ensures nowhere { IfOk result (λ b. b ≡ false → LeadsNowhere self.old.geometry (fold_said self.old) batch.now) }
        ensures geometry { self.new.geometry ≡ self.old.geometry }
    {
        let records = match read_all(alloc, batch.records.as_slice(), batch.count) {
            Ok(records) => records,
            Err(RecordRefusal::Bad { .. }) => return Ok(false),
            Err(RecordRefusal::Memory) => return Err(AllocError),
        };
        if batch.number < self.store.number || LAST_NUMBER < batch.number {
            return Ok(false);
        }
        let mut touched = Vec::new(alloc);
        if !self.take_records(alloc, records, &mut touched)? {
            return Ok(false);
        }
        self.store.number = batch.number;
        self.settle(alloc, touched)
    }

    /// Takes the records of a batch into the store, and notes which inodes they are about. At `false` they don't apply, or no batch with them could be
    /// valid.
    fn take_records(
        &mut self,
        alloc: Global,
        records: Records,
        touched: &mut Vec<u64>,
    ) -> Result<bool, AllocError>
        requires { IsOpen self.old.geometry self.old.store self.old.uses touched.old.items }
        ensures open { IfOk result (λ b. b ≡ true → IsOpen self.new.geometry self.new.store self.new.uses touched.new.items) }
        ensures apply { IfOk result (λ b. b ≡ true → AllApply records (store_said self.old.store)) }
        ensures changed { IfOk result (λ b. b ≡ true → store_said self.new.store ≡ changed_all records (store_said self.old.store)) }
        ensures refused { IfOk result (λ b. b ≡ false → AllApply records (store_said self.old.store) → last_generation < (changed_all records (store_said self.old.store)).next) }
        ensures geometry { self.new.geometry ≡ self.old.geometry }
    {
        for record in records.into_vec() {
            self.touch(touched, record.ino())?;
            if !self.store.take_record(alloc, record)? {
                return Ok(false);
            }
        }
        Ok(true)
    }

    /// Notes that a record is about that inode, and counts the file that has it no longer.
    fn touch(&mut self, touched: &mut Vec<u64>, ino: u64) -> Result<(), AllocError>
        requires { IsOpen self.old.geometry self.old.store self.old.uses touched.old.items }
        ensures open { OnOk result (IsOpen self.new.geometry self.new.store self.new.uses touched.new.items) }
        ensures touched { OnOk result (is_touched touched.new.items ino ≡ true) }
        ensures store { self.new.store ≡ self.old.store }
        ensures geometry { self.new.geometry ≡ self.old.geometry }
    {
        if touched.contains(&ino) {
            return Ok(());
        }
        touched.push(ino)?;
        if let Some(file) = self.store.files.get(&ino) {
            self.uses.release(file);
        }
        Ok(())
    }

    /// Judges the files that records were about, and counts them. At `false` the store isn't lawful.
    fn settle(&mut self, alloc: Global, mut touched: Vec<u64>) -> Result<bool, AllocError>
        requires { IsOpen self.old.geometry self.old.store self.old.uses touched.items }
        ensures open { IfOk result (λ b. b ≡ true → IsOpen self.new.geometry self.new.store self.new.uses []) }
        ensures refused { IfOk result (λ b. b ≡ false → AreLawfulTogether self.old.geometry self.old.store → ⊥) }
        ensures store { self.new.store ≡ self.old.store }
        ensures geometry { self.new.geometry ≡ self.old.geometry }
    {
        while let Some(ino) = touched.pop() {
            if !self.judge(alloc, ino)? {
                return Ok(false);
            }
        }
        Ok(true)
    }

    /// Judges the file with the last inode that was touched, if there is one, and counts it. At `false` the store isn't lawful.
    fn judge(&mut self, alloc: Global, ino: u64) -> Result<bool, AllocError>
        requires { (others : List ℕ) × IsOpen self.old.geometry self.old.store self.old.uses (others ++ ino ∷ []) }
        ensures open { IfOk result (λ b. b ≡ true → (others : List ℕ) → IsOpen self.old.geometry self.old.store self.old.uses (others ++ ino ∷ []) → IsOpen self.new.geometry self.new.store self.new.uses others) }
        ensures refused { IfOk result (λ b. b ≡ false → AreLawfulTogether self.old.geometry self.old.store → ⊥) }
        ensures store { self.new.store ≡ self.old.store }
        ensures geometry { self.new.geometry ≡ self.old.geometry }
    {
        let bounds = geometry_of(self.geometry);
        let Some(file) = self.store.files.get(&ino) else {
            return Ok(true);
        };
        if !is_alone(alloc, bounds, self.store.next, file)? {
            return Ok(false);
        }
        Ok(self.uses.claim(bounds, file))
    }
}
