//! Where bytes come from and go to.
ghost use Rattle.std.specs.Prelude.{◌≡◌, ℕ, Option, List, OnOk};
ghost use Rattle.std.specs.Io.{ReadsAtMost, WritesAtMost};
ghost use Rattle.std.specs.Io.KnownBytes.{ReadConsumes, WriteAppends};
ghost use Rattle.hosts.specs.Causes.{HasCause, IsToldWhereNoneTaken, IsQuietWhereTaken};

use thiserror::Error;

/// A fault of a source or a sink, which its count tells.
#[derive(Clone, Copy, Debug, PartialEq, Eq, Error)]
#[error("a fault")]
pub struct Failed;

/// Where a script comes from. It is at its end where it gives nothing for a buffer with room.
pub trait Source {
    /// The bytes that are left, where they are known.
    ghost left: { Self → Option (List ℕ) };

    /// How many faults there were, as far as a u64 counts.
    ghost fault_count: { Self → ℕ };

    /// How many faults there were. The count stops at the greatest u64.
    fn faults(&self) -> u64
        ensures { result ≡ fault_count self.now };

    /// Fills the front of `buf`, and says how much of it. At an `Err` nothing was taken, and only there the count of faults rises, by one.
    fn read(&mut self, buf: &mut [u8]) -> Result<usize, Failed>
        ensures bound { ReadsAtMost result buf.new }
        ensures bytes { ReadConsumes (left self.old) (left self.new) result buf.new }
        ensures cause { HasCause (fault_count self.old) (fault_count self.new) result }
        ensures quiet { OnOk result (fault_count self.new ≡ fault_count self.old) };
}

/// Where a transcript goes.
pub trait Sink {
    /// The bytes that it took, where they are known.
    ghost taken: { Self → Option (List ℕ) };

    /// How many faults there were, as far as a u64 counts.
    ghost fault_count: { Self → ℕ };

    /// How many faults there were. The count stops at the greatest u64.
    fn faults(&self) -> u64
        ensures { result ≡ fault_count self.now };

    /// Takes the front of `bytes`, and says how much of it. An `Err`, at which nothing was taken, is one fault, and so is to take nothing of bytes. There
    /// is no other.
    fn write(&mut self, bytes: &[u8]) -> Result<usize, Failed>
        ensures bound { WritesAtMost result bytes.now }
        ensures bytes { WriteAppends (taken self.old) (taken self.new) result bytes.now }
        ensures cause { HasCause (fault_count self.old) (fault_count self.new) result }
        ensures told { IsToldWhereNoneTaken (fault_count self.old) (fault_count self.new) result bytes.now }
        ensures quiet { IsQuietWhereTaken (fault_count self.old) (fault_count self.new) result bytes.now };
}
