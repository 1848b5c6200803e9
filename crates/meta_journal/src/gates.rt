//! A batch goes to the disk in two runs of two calls: all behind its gate, and then its gate.
ghost use Rattle.std.specs.Prelude.{◌≡◌, ◌+◌, ◌<◌, ◌≤◌, ◌^◌, ◌∷◌, List, ℕ, length, OnOk};
ghost use Rattle.disk_model.specs.Calls.{HasCause};
ghost use Rattle.disk_model.specs.Images.{IsFreed, IsWritten};
ghost use Rattle.disk_model.specs.Moments.{MayBe, Keeps, Turns};
ghost use Rattle.meta_journal.specs.Steps.{StaysShut};

use disk_model::{Disk, Failed, sync_all, write_at};

const OPEN: [u8; 1] = [1];

// Writes the bytes at that place, and makes them durable.
fn write_through<D: Disk>(disk: &mut D, at: u64, bytes: &[u8]) -> Result<(), Failed>
    requires { at + length bytes.now ≤ D.length_of disk.old }
    ensures any_moment { Keeps D.Disk disk.old disk.new (IsFreed at (length bytes.now)) }
    ensures stored { OnOk result ((c : List ℕ) → MayBe D.Disk disk.new c → (d : List ℕ) × D.gives disk.old d × IsWritten at bytes.now d c) }
    ensures cause { HasCause result (D.fault_count disk.old) (D.fault_count disk.new) }
{
    write_at(disk, at, bytes)?;
    sync_all(disk)?;
    Ok(())
}

/// Puts a batch behind the gate at that place, which is closed, and opens the gate. The bytes are the batch without its gate, and
/// the next gate.
pub(crate) fn put_batch<D: Disk>(disk: &mut D, at: u64, body: &[u8]) -> Result<(), Failed>
    requires fits { at + (1 + length body.now) ≤ D.length_of disk.old }
    requires place { at + 1 < 2 ^ 64 }
    ensures any_moment { Turns D.Disk disk.old disk.new (StaysShut at (length body.now)) (IsWritten at (1 ∷ body.now)) }
    ensures stored { OnOk result ((c : List ℕ) → MayBe D.Disk disk.new c → (d : List ℕ) × D.gives disk.old d × IsWritten at (1 ∷ body.now) d c) }
    ensures cause { HasCause result (D.fault_count disk.old) (D.fault_count disk.new) }
{
    write_through(disk, at + 1, body)?;
    write_through(disk, at, &OPEN)?;
    Ok(())
}
