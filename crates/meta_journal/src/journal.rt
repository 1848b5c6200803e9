//! A journal to which batches are added.
ghost use Rattle.std.specs.Prelude.{◌≡◌, ◌+◌, ◌<◌, ◌≤◌, ◌^◌, ◌++◌, [], List, ℕ, length, OnOk, OnErr, IsErr, IsErrOf, ◌↔◌, IsTrue};
ghost use Rattle.disk_model.specs.Calls.{Counts};
ghost use Rattle.disk_model.specs.Moments.{MayBe, Turns};
ghost use Rattle.meta_journal.specs.Texts.{IsClosed};
ghost use Rattle.meta_journal.specs.Steps.{unstaged, after_commit, FitsBatch, Holds, KeepsBatches, AddsBatch};

use crate::frames::{FRAME, Frame, HEAD, overwrite, put_frame};
use crate::gates::put_batch;
use crate::refusals::{Full, JournalRefusal};
use disk_model::Disk;
use std::marker::Model;

/// A journal on a disk, and the records of the next batch, staged in a buffer as long as the journal. Contracts see where it begins
/// and how long it is, how many bytes its batches have, and the staged records: how many, and their bytes.
#[derive(Drop)]
pub struct MetaJournal {
    at: u64,
    used: usize,
    count: u32,
    size: usize,
    // the batch without its gate, and the next gate: the records stand from byte 16 on
    bytes: Vec<u8>,
}

impl Model for MetaJournal {
    ghost use Rattle.std.specs.Prelude.{◌+◌, ◌<◌, ◌≤◌, ◌^◌, length};
    ghost use Rattle.disk_model.specs.Images.{part};
    ghost use Rattle.meta_journal.specs.Steps.{Journal, HasRoom};

    ghost Value = { Journal };

    ghost view = { λ j. record { at = j.at; len = length j.bytes.items; used = j.used; count = j.count; staged = part j.bytes.items 16 j.size } };

    ghost invariant = { λ j. HasRoom (length j.bytes.items) j.used j.count j.size };
}

impl MetaJournal {
    /// A journal whose batches have so many bytes, with this buffer and nothing staged.
    pub(crate) fn unstaged(at: u64, bytes: Vec<u8>, used: usize) -> MetaJournal
        requires room { used + 1 ≤ length bytes.items }
        requires short { length bytes.items < 2 ^ 32 }
        ensures { result ≡ unstaged at (length bytes.items) used }
    {
        MetaJournal {
            at,
            used,
            count: 0,
            size: 0,
            bytes,
        }
    }

    /// Whether records of so many bytes more fit, in one or in several.
    pub fn fits(&self, more: usize) -> bool
        ensures { IsTrue result ↔ FitsBatch self.now more }
    {
        let taken = self.used + FRAME + self.size;
        taken < self.bytes.len() && more < self.bytes.len() - taken
    }

    /// Stages the bytes of a record for the next batch.
    pub fn append(&mut self, bytes: &[u8]) -> Result<(), Full>
        requires some { 1 ≤ length bytes.now }
        ensures staged { OnOk result (self.new ≡ record self.old { count = self.old.count + 1; staged = self.old.staged ++ bytes.now }) }
        ensures same { OnErr result (self.new ≡ self.old) }
        ensures full { IsErr result ↔ (FitsBatch self.old (length bytes.now) → ⊥) }
    {
        if !self.fits(bytes.len()) {
            return Err(Full);
        }
        overwrite(&mut self.bytes, HEAD + self.size, bytes);
        self.size += bytes.len();
        self.count += 1;
        Ok(())
    }

    /// Adds what is staged to the journal, as a batch of that number, with two writes and two syncs and no memory. At each moment the
    /// journal has the batches from before, or one more, where the next gate is closed on each image that may be, and where numbers
    /// don't fall and are at most 2^62. After `Failed` that gate may be open, so a second commit promises nothing of batches.
    pub fn commit<D: Disk>(&mut self, disk: &mut D, number: u64) -> Result<(), JournalRefusal>
        requires there { self.old.at + self.old.len ≤ D.length_of disk.old }

        // At each moment since, and after a failure too, the journal has the batches from before, or one more, where the gate was
        // closed on each image that may be, and where numbers don't fall and are at most 2^62.
        ensures any_moment { Turns D.Disk disk.old disk.new (KeepsBatches self.old) (AddsBatch self.old number) }
        ensures stored { OnOk result ((c : List ℕ) → MayBe D.Disk disk.new c → (d : List ℕ) × D.gives disk.old d × AddsBatch self.old number d c) }
        ensures after { OnOk result (self.new ≡ after_commit self.old) }

        // Why it wasn't written. What is staged stays.
        ensures same { OnErr result (self.new ≡ self.old) }
        ensures full { IsErrOf result JournalRefusal.Full ↔ (FitsBatch self.old 0 → ⊥) }
        ensures unwritten { IsErrOf result JournalRefusal.Full → disk.new ≡ disk.old }
        ensures faults { Counts (IsErrOf result JournalRefusal.Failed) (D.fault_count disk.old) (D.fault_count disk.new) }
    {
        // So each place of the journal is a u64.
        let _whole = disk.len();
        if !self.fits(0) {
            return Err(JournalRefusal::Full);
        }
        let frame = Frame {
            size: self.size,
            number,
            count: self.count,
        };
        put_frame(&mut self.bytes, frame);
        let gate = self.at + self.used as u64;
        let Ok(()) = put_batch(disk, gate, &self.bytes[..FRAME + self.size]) else {
            return Err(JournalRefusal::Failed);
        };
        self.used += FRAME + self.size;
        self.size = 0;
        self.count = 0;
        Ok(())
    }

    /// Drops what is staged, and goes on at the journal there on that disk, which has the same length and whose first gate is closed:
    /// it has no batch. No call is made of the disk.
    pub fn restart<D: Disk>(&mut self, disk: &D, at: u64)
        requires there { at + self.old.len ≤ D.length_of disk.now }
        requires closed { (c : List ℕ) → MayBe D.Disk disk.now c → IsClosed c at }
        ensures restarted { self.new ≡ unstaged at self.old.len 0 }
        ensures empty { (number : ℕ) (c : List ℕ) → MayBe D.Disk disk.now c → Holds self.new number [] c }
    {
        self.at = at;
        self.used = 0;
        self.size = 0;
        self.count = 0;
    }
}
