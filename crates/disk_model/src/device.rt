//! A disk: what a read gives, and what a crash may leave.
ghost use Rattle.std.specs.Prelude.{◌≡◌, ◌+◌, ◌≤◌, ℕ, List, length, OnOk};
ghost use Rattle.disk_model.specs.Images.{part, IsFreed, IsWritten, Follows, Within, Alike};
ghost use Rattle.disk_model.specs.Calls.{Elapses, HasCause};

use thiserror::Error;

/// A call of the disk failed, and the disk's count of faults rose by one in it.
#[derive(Clone, Copy, Debug, PartialEq, Eq, Error)]
#[error("the disk failed")]
pub struct Failed;

/// A disk of fixed length. Between two syncs a crash may leave any bytes in each range that a write was called for, one
/// that failed too, and leaves all other bytes; after a sync that succeeded it leaves what a read gives. An image is the
/// list of all the disk's bytes. A disk that doesn't tell what it holds has no image in `gives` and `may_leave`, and then the
/// clauses on images say nothing.
pub trait Disk {
    /// Whether reads may give this content.
    ghost gives: { Self → List ℕ → Type 0 };

    /// What reads give, where the disk tells it. Else it is some list, of any length.
    ghost content: { Self → List ℕ };

    /// Whether a crash at this moment may leave this image.
    ghost may_leave: { Self → List ℕ → Type 0 };

    /// The moment, as a number that doesn't fall.
    ghost moment: { Self → ℕ };

    /// Whether a crash at some moment from that one on might have left this image.
    ghost left_since: { Self → ℕ → List ℕ → Type 0 };

    ghost length_of: { Self → ℕ };

    /// How often the disk has failed. The count stops at the greatest u64.
    ghost fault_count: { Self → ℕ };

    /// The number of the disk's bytes.
    fn len(&self) -> u64
        ensures { result ≡ length_of self.now };

    /// How often a call has failed.
    fn faults(&self) -> u64
        ensures { result ≡ fault_count self.now };

    /// Fills the buffer with the bytes from that place on.
    fn read(&mut self, at: u64, buf: &mut [u8]) -> Result<(), Failed>
        requires { at + length buf.old ≤ length_of self.old }
        ensures bytes { OnOk result ((c : List ℕ) → gives self.old c → buf.new ≡ part c at (length buf.old)) }
        ensures given { Alike (gives self.old) (gives self.new) }
        ensures crash { Within (may_leave self.old) (may_leave self.new) }
        ensures time { Elapses (moment self.old) (moment self.new) (left_since self.old) (left_since self.new) (may_leave self.new) }
        ensures length { length_of self.new ≡ length_of self.old }
        ensures cause { HasCause result (fault_count self.old) (fault_count self.new) };

    /// Writes the bytes at that place. Until a sync, a crash may leave any bytes in the range, after a failure too.
    fn write(&mut self, at: u64, bytes: &[u8]) -> Result<(), Failed>
        requires { at + length bytes.now ≤ length_of self.old }
        ensures written { OnOk result (Follows (IsWritten at bytes.now) (gives self.old) (gives self.new)) }
        ensures given { Follows (IsFreed at (length bytes.now)) (gives self.old) (gives self.new) }
        ensures crash { Follows (IsFreed at (length bytes.now)) (may_leave self.old) (may_leave self.new) }
        ensures time { Elapses (moment self.old) (moment self.new) (left_since self.old) (left_since self.new) (may_leave self.new) }
        ensures length { length_of self.new ≡ length_of self.old }
        ensures cause { HasCause result (fault_count self.old) (fault_count self.new) };

    /// After it succeeds, a crash leaves what a read gives.
    fn sync(&mut self) -> Result<(), Failed>
        ensures durable { OnOk result (Within (gives self.new) (may_leave self.new)) }
        ensures given { Alike (gives self.old) (gives self.new) }
        ensures crash { Within (may_leave self.old) (may_leave self.new) }
        ensures time { Elapses (moment self.old) (moment self.new) (left_since self.old) (left_since self.new) (may_leave self.new) }
        ensures length { length_of self.new ≡ length_of self.old }
        ensures cause { HasCause result (fault_count self.old) (fault_count self.new) };

    /// This moment is one of those since an earlier one.
    ghost counts_now: { (d : Self) (t : ℕ) (c : List ℕ) → t ≤ moment d → may_leave d c → left_since d t c };

    /// Since this moment there is no other.
    ghost only_now: { (d : Self) (c : List ℕ) → left_since d (moment d) c → may_leave d c };

    /// Reads give one content.
    ghost one_content: { (d : Self) (c : List ℕ) → gives d c → c ≡ content d };

    /// What is given or left has the disk's length.
    ghost given_length: { (d : Self) (c : List ℕ) → gives d c → length c ≡ length_of d };

    ghost left_length: { (d : Self) (c : List ℕ) → may_leave d c → length c ≡ length_of d };
}
