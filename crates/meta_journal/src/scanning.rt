//! What a journal on a disk holds.
ghost use Rattle.std.specs.Prelude.{◌≡◌, ◌⊎◌, ◌+◌, ◌<◌, ◌≤◌, ◌^◌, List, Option, ℕ, length, IfOk, IfErr, IsErrOf};
ghost use Rattle.disk_model.specs.Images.{part, Alike};
ghost use Rattle.disk_model.specs.Calls.{Counts};
ghost use Rattle.disk_model.specs.Moments.{Keeps, Same};
ghost use Rattle.meta_journal.specs.declared.lists.Batch.{Batch};
ghost use Rattle.meta_journal.specs.Texts.{IsReading};
ghost use Rattle.meta_journal.specs.Steps.{unstaged};

use crate::frames::{FRAME, frame_at};
use crate::journal::MetaJournal;
use crate::lists::{Batch, Batches, RecordBytes};
use disk_model::{Disk, OpenRefusal, read_at};
use std::alloc::{AllocError, Global};

// The batches in front of a journal, how many bytes they have, and the gate of the bad one behind them, if there is one.
#[derive(Drop)]
struct Front {
    batches: Vec<Batch>,
    used: usize,
    bad: Option<u64>,
}

// What the bytes of the journal that lies at that place of its disk say.
fn front_of(alloc: Global, journal: &[u8], at: u64, number: u64) -> Result<Front, AllocError>
    requires some { 1 ≤ length journal.now }
    requires short { length journal.now < 2 ^ 32 }
    requires at { at + length journal.now < 2 ^ 64 }
    ensures read { IfOk result (λ f. IsReading journal.now at number f.batches.items f.used f.bad) }
    ensures room { IfOk result (λ f. f.used + 1 ≤ length journal.now) }
{
    let mut batches = Vec::new(alloc);
    let mut used = 0;
    let mut last = number;
    while journal[used] == 1 {
        let place = at + used as u64;
        let Some(frame) = frame_at(journal, used, last) else {
            return Ok(Front {
                batches,
                used,
                bad: Some(place),
            });
        };
        let from = used + FRAME;
        let end = from + frame.size;
        batches.push(Batch {
            place,
            number: frame.number,
            count: frame.count,
            records: RecordBytes::copy(alloc, &journal[from..end])?,
        })?;
        last = frame.number;
        used = end;
    }
    Ok(Front {
        batches,
        used,
        bad: None,
    })
}

/// Reads the journal of `len` bytes at that place of the disk, both in bytes, whose first batch is to have at least that number. It
/// gives the journal, with nothing staged, the batches before the first gate that isn't open or whose frame is bad, and in the second
/// case that gate's place. A frame is bad where the batch doesn't end within the journal with room for the next gate, or its number
/// is above 2^62 or below the one before. Where one is bad, nothing is to be committed there. Only `Disk` and `Memory` are answered.
pub fn scan<D: Disk>(
    alloc: Global,
    disk: &mut D,
    at: u64,
    len: u64,
    number: u64,
) -> Result<(MetaJournal, Batches, Option<u64>), OpenRefusal>
    requires some { 1 ≤ len }
    requires short { len < 2 ^ 32 }
    requires there { at + len ≤ D.length_of disk.old }

    // Nothing changes.
    ensures keeps { Keeps D.Disk disk.old disk.new Same }
    ensures given { Alike (D.gives disk.old) (D.gives disk.new) }

    // Ok tells what the disk holds, and of each text of batches there is no other reading.
    ensures read { IfOk result (λ r. (c : List ℕ) → D.gives disk.old c → IsReading (part c at len) at number r.1 r.0.used r.2) }
    ensures no_other_reading { IfOk result (λ r. (c : List ℕ) → D.gives disk.old c → (batches : List Batch) (used : ℕ) (bad : Option ℕ)
        → IsReading (part c at len) at number batches used bad → (r.1 ≡ batches) × (r.0.used ≡ used) × (r.2 ≡ bad)) }

    // On a disk that doesn't tell, too.
    ensures journal { IfOk result (λ r. r.0 ≡ unstaged at len r.0.used) }

    // Why it wasn't read.
    ensures faults { Counts (IsErrOf result OpenRefusal.Disk) (D.fault_count disk.old) (D.fault_count disk.new) }
    ensures no_other { IfErr result (λ e. (e ≡ OpenRefusal.Disk) ⊎ (e ≡ OpenRefusal.Memory)) }
{
    // So each place of the journal is a u64.
    let _whole = disk.len();
    let Ok(mut bytes) = vec![in alloc; 0u8; len as usize] else {
        return Err(OpenRefusal::Memory);
    };
    let Ok(()) = read_at(disk, at, &mut bytes) else {
        return Err(OpenRefusal::Disk);
    };
    let Ok(front) = front_of(alloc, &bytes, at, number) else {
        return Err(OpenRefusal::Memory);
    };
    let journal = MetaJournal::unstaged(at, bytes, front.used);
    let batches = Batches::new(front.batches);
    Ok((journal, batches, front.bad))
}
